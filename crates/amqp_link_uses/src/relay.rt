//! A store-and-forward relay: it keeps what it sent until that has an outcome, also when the link is cut.
//!
//! Once the link is attached again (`take_attach`), the relay sends what the list of the exchange asks for: the rest of
//! a delivery from the position that the peer reported (`send_rest`), or all of it if the peer has nothing
//! (`send_again`). `resumption::resume_next` does the same with the first of a list, and with deliveries that are to be
//! aborted, or whose outcome is to be stated again. The relay's ledger has the fate of each registration. After an exchange
//! that did not state all deliveries it detaches the link (`detach_to_attach_again`) and attaches it again, until an
//! exchange is complete. Between two of these the peer has to settle some of what was sent.

ghost use Rattle.std.specs.Prelude.{◌≡◌, ◌⊎◌, true, false, None, Some, unwrap_or};
ghost use Rattle.std.specs.Prelude.{IfOk, IfErr, OnOk, IsErrOf, MatchResult};
ghost use Rattle.std.specs.Option.{option_map};
ghost use Rattle.amqp_link.specs.AttachFields.{next_of, remote_entries};
ghost use Rattle.amqp_link.specs.Detaching;
ghost use Rattle.amqp_link.specs.Exchanges.{deliveries_to_resume, outcomes_returned};
ghost use Rattle.amqp_link.specs.Exchanging.{deliveries_in, ledger_taken};
ghost use Rattle.amqp_link.specs.Fates.{Change, after};
ghost use Rattle.amqp_link.specs.SenderAttaches.{exchange_in, sender_left, sender_refusal, sender_taking_allocates};
ghost use Rattle.amqp_link.specs.Targets.{plain_target};
ghost use Rattle.amqp_link.specs.Termini.{sender_refuses_target};
ghost use Rattle.amqp_link_uses.specs.Relays;

use amqp_link::delivery::Outcomes;
use amqp_link::endpoint::detach_frame;
use amqp_link::errors::SenderAttachError;
use amqp_link::resumption::ResumingDelivery;
pub use amqp_link::resumption::{send_again, send_rest};
use amqp_link::sender_link::SenderAttachExchange;
use amqp_link::types::{Attach, Target};
use amqp_link::{DeliveryTag, LinkAttach, LinkExt, LinkFrame, OutcomeLedger};
use std::alloc::Global;

/// What follows once a relay's link is attached again.
#[derive(Drop)]
pub struct Reattached {
    /// The deliveries to resume, to send again, to abort or to restate, in order, each with its tag.
    pub resuming: Vec<(DeliveryTag, ResumingDelivery)>,
    /// The outcomes of the deliveries that have ended by what both attaches state of them.
    pub outcomes: Outcomes,
    /// Whether an attach did not state all deliveries. The list has each of the relay's own all the same: one that the
    /// peer's attach did not state is listed as `Resend`, though the peer may have received something of it. So the
    /// relay sends what is listed as anything else, puts each `Resend` back (`OutcomeLedger::put_back`), and then
    /// detaches the link (`detach_to_attach_again`) and attaches it again, once the peer has settled some of what was sent:
    /// until then the next attach states the same ones.
    pub is_incomplete: bool,
}

/// Takes the peer's attach, once a relay's link is attached again by its own: the relay has set the new handle by
/// `output_handle_mut`, and has sent the attach of `send_attach`.
///
/// Refused as `LinkAttach::on_incoming_attach` of the ledger is: the ledger's `handle_attach_error` has what to do. If it
/// is out of memory, nothing has changed.
pub fn take_attach(
    alloc: Global,
    ledger: &mut OutcomeLedger<Target>,
    theirs: Attach,
) -> Result<Reattached, SenderAttachError>
    ensures taken { OnOk result (ledger.new ≡ ledger_taken plain_target ledger.old theirs) }
    ensures listed { IfOk result (λ again. again.resuming.items
        ≡ deliveries_to_resume ledger.old.link.unsettled (remote_entries theirs)) }
    ensures ended { IfOk result (λ again. again.outcomes.items
        ≡ outcomes_returned ledger.old.link.unsettled (remote_entries theirs)) }
    ensures fates { OnOk result (ledger.new.records ≡ after
        (Change.HandsOut (deliveries_to_resume ledger.old.link.unsettled (remote_entries theirs)))
        (after (Change.Resolves (outcomes_returned ledger.old.link.unsettled (remote_entries theirs)))
        ledger.old.records)) }
    ensures incomplete { IfOk result (λ again. again.is_incomplete ≡ Relays.is_incomplete (exchange_in
        (unwrap_or (next_of ledger.old.link.local_state theirs) ledger.old.link.local_state)
        ledger.old.link.unsettled (remote_entries theirs))) }
    ensures refused { MatchResult result
        (λ _. sender_refusal plain_target (λ own theirs. sender_refuses_target theirs) ledger.old.link theirs ≡ None)
        (λ error. (error ≡ SenderAttachError.OutOfMemory) ⊎ (sender_refusal plain_target
        (λ own theirs. sender_refuses_target theirs) ledger.old.link theirs ≡ Some error)) }
    ensures memory { IsErrOf result SenderAttachError.OutOfMemory
        → (sender_refusal plain_target (λ own theirs. sender_refuses_target theirs) ledger.old.link theirs ≡ None)
        × (sender_taking_allocates ledger.old.link theirs ≡ true) }
    ensures left { IfErr result (λ error. ledger.new ≡ record ledger.old {
      link = sender_left plain_target (λ own theirs. sender_refuses_target theirs) error ledger.old.link theirs;
    }) }
{
    let (exchange, outcomes) = ledger.on_incoming_attach(theirs)?;
    let is_incomplete = matches!(exchange, SenderAttachExchange::IncompleteUnsettled(_));
    Ok(Reattached {
        resuming: list_of(alloc, exchange),
        outcomes,
        is_incomplete,
    })
}

// The list of an exchange: nothing is to be done if neither side has an unsettled delivery.
fn list_of(alloc: Global, exchange: SenderAttachExchange) -> Vec<(DeliveryTag, ResumingDelivery)>
    ensures { result.items ≡ deliveries_in exchange }
{
    match exchange {
        SenderAttachExchange::Complete => Vec::new(alloc),
        SenderAttachExchange::IncompleteUnsettled(list) | SenderAttachExchange::Resume(list) => {
            list.into_vec()
        }
    }
}

/// The detach to send after an incomplete exchange, once each delivery of its list is sent or put back. It does not
/// close the link, and moves no state: once the peer's detach has arrived in reply, the relay gives it to the ledger's
/// `apply_remote_detach_outcome`. Then it sets a handle by `output_handle_mut`, sends its attach, and takes the peer's
/// (`take_attach`), until an exchange is complete (2.6.13).
///
/// None without output handle. Does not allocate.
pub fn detach_to_attach_again(ledger: &OutcomeLedger<Target>) -> Option<LinkFrame>
    ensures { result ≡ option_map (λ handle. Detaching.detach_frame handle false None) ledger.now.link.output_handle }
{
    let handle = ledger.link().output_handle()?;
    Some(detach_frame(handle, false, None))
}
