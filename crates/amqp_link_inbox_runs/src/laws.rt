//! What an inbox holds of a delivery that a sender's ledger sends, through any interruptions (2.6.13). Each function does
//! nothing: its contract is the law.
ghost use Rattle.std.specs.Prelude.{◌≡◌, ◌++◌, ℕ, List, None, Some, IfSome};
ghost use Rattle.amqp_link_types.specs.Entries.{Tag};
ghost use Rattle.amqp_link_types.specs.declared.delivery.UnsettledMessage.{UnsettledMessage as TheUnsettledMessage};
ghost use Rattle.amqp_link_core.specs.Resuming.{resolution};
ghost use Rattle.amqp_link_core.specs.declared.resumption.Resolution.TheVariants.{Resuming};
ghost use Rattle.amqp_link_core.specs.declared.resumption.ResumingDelivery.TheVariants.{Resume};
ghost use Rattle.amqp_link_inbox.specs.Bytes.{bytes_at};
ghost use Rattle.amqp_link_inbox.specs.Inboxes.{InboxState};
ghost use Rattle.amqp_link_inbox.specs.Storing.{IsStated};
ghost use Rattle.amqp_link_inbox_runs.specs.FromLedger.{AreAttachments, ComesWhole, Opens};
ghost use Rattle.amqp_link_inbox_runs.specs.InboxRuns.{IsRun, Moment as TheMoment, received};
ghost use Rattle.amqp_link_inbox_runs.specs.InboxSteps.{Decoder};

use amqp_link_endpoint::endpoint::target::LinkTarget;
use amqp_link_exchange::laws::front_and_rest_are_the_payload;
use amqp_link_types::types::FromBody;

/// An `OutcomeLedger` that has heard no outcome of a delivery answers the position that an inbox states of it by exactly the
/// rest: what is held and what is then to be sent, joined, are the payload. (`OutcomeLedger::on_incoming_attach` lists it so, and
/// `send_unsettled_transfer` sends it.)
pub fn a_position_gives_the_rest()
    ensures { (tag : Tag) → (entry : TheUnsettledMessage) → (held rest : List ℕ) → entry.state ≡ None → held ++ rest ≡ entry.payload
        → resolution tag entry (Some (received held)) ≡ Resuming (Resume entry rest) }
{
    front_and_rest_are_the_payload();
}

/// Through any attachments, in each of which a front comes of what the ledger sends there, its payload as a new delivery or
/// the rest that the inbox lacks, the inbox holds a front of the payload; and all of it, once all has come that was lacking.
pub fn an_inbox_holds_what_a_ledger_sends<T: LinkTarget, B: FromBody>()
    ensures front { (tag : Tag) → (payload : List ℕ) → (decoded : Decoder B) → (old new : InboxState T)
        → (attachments : List (List (TheMoment T B))) → IsStated old.deliveries old.link.unsettled
        → IfSome (bytes_at old.deliveries tag) (λ held. Opens held payload)
        → AreAttachments tag payload decoded old attachments new
        → IfSome (bytes_at new.deliveries tag) (λ held. Opens held payload) }
    ensures whole { (tag : Tag) → (payload : List ℕ) → (decoded : Decoder B) → (old new : InboxState T)
        → (moments : List (TheMoment T B)) → IsStated old.deliveries old.link.unsettled
        → IfSome (bytes_at old.deliveries tag) (λ held. Opens held payload)
        → IsRun decoded old moments new → ComesWhole tag payload old moments
        → IfSome (bytes_at new.deliveries tag) (λ held. held ≡ payload) }
{
    front_and_rest_are_the_payload();
}
