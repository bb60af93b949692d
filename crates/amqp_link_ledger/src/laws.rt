//! What follows from the definitions of the records, without any call.
//!
//! Each function here does nothing: its contract is the law.
ghost use Rattle.std.specs.Prelude.{Bool, List, Option};
ghost use Rattle.std.specs.Option.{option_to_list};
ghost use Rattle.amqp_link_types.specs.declared.delivery.UnsettledMessage.{UnsettledMessage as TheUnsettledMessage};
ghost use Rattle.amqp_link_types.specs.declared.types.definitions.Error.{Error};
ghost use Rattle.amqp_link_types.specs.declared.types.delivery_state.DeliveryState.{DeliveryState};
ghost use Rattle.amqp_link_types.specs.Entries.{Tag, Entries};
ghost use Rattle.amqp_link_endpoint.specs.Attaching.{States};
ghost use Rattle.amqp_link_dispositions.specs.Ending.{ended_by, all_closed};
ghost use Rattle.amqp_link_exchange.specs.Exchanges.{outcomes_returned};
ghost use Rattle.amqp_link_sender.specs.Senders.{Sender};
ghost use Rattle.amqp_link_endpoint.specs.Shown.{all_illegal};
ghost use Rattle.amqp_link_sender.specs.SenderDisposes.{ended_at};
ghost use Rattle.amqp_link_ledger.specs.Fates.{AreOfPending, IsRecorded};
ghost use Rattle.amqp_link_ledger.specs.Fates.{Change, MovesOnce, Records, after_all};

/// Over any list of changes each registration keeps its number and its tag, and a fate that has moved stays
/// (2.6.12 and 2.6.13).
pub fn fates_move_once()
    ensures { (changes : List Change) (records : Records) → MovesOnce records (after_all changes records) }
{}

/// The outcomes that a call of a ledger returns are those of pending registrations, each once
/// (2.6.6, 2.6.12 and 2.6.13). `IsRecorded` is what each ledger keeps between its calls.
pub fn outcomes_are_of_pending_records<T>()
    // The sender settles deliveries, by any list of their tags.
    ensures disposed { (s : Sender T) (records : Records) → IsRecorded s.unsettled records
        → (settled : Bool) (tags : List Tag) → AreOfPending (ended_at s settled tags) records }

    // The receiver sends a disposition of one delivery.
    ensures disposition { (own : Entries TheUnsettledMessage) (records : Records) → IsRecorded own records
        → (settled : Bool) (state : Option DeliveryState) (tag : Tag)
        → AreOfPending (option_to_list (ended_by settled state tag own)) records }

    // The peer closes the link.
    ensures closed { (own : Entries TheUnsettledMessage) (records : Records) → IsRecorded own records
        → (error : Option Error) → AreOfPending (all_closed error own) records }

    // The link attaches anew.
    ensures attached_anew { (own : Entries TheUnsettledMessage) (records : Records) → IsRecorded own records
        → AreOfPending (all_illegal own) records }

    // The peer's attach was taken: the two unsettled maps are exchanged.
    ensures exchanged { (own : Entries TheUnsettledMessage) (records : Records) → IsRecorded own records
        → (remote : States) → AreOfPending (outcomes_returned own remote) records }
{}
