//! What follows from what the calls of a broker do, whatever its peers send.
//!
//! Each function here does nothing: its contract is the law.
ghost use Rattle.std.specs.Prelude.{◌≡◌, ◌≤◌, ◌+◌, Bool, ℕ, None, Option, Result, Some, slice_get};
ghost use Rattle.amqp_link.specs.Entries.{Tag};
ghost use Rattle.amqp_link.specs.declared.types.DeliveryState.{DeliveryState};
ghost use Rattle.amqp_link_uses.specs.Brokers.{BrokerState, Disposes, Forwards, IncomingState, OutcomeSeen, OutgoingState, Resumes, TakesIn, TakesSettledIn, counted, credit_of, done_in, ended_by_step, free, granted, occupied, origin_at, returned, sum_of_messages, with_incoming, with_outgoing};
ghost use Rattle.amqp_link_uses.specs.declared.broker.Forwarded.{Forwarded};
ghost use Rattle.amqp_link_uses.specs.declared.broker.Origin.{Origin};
ghost use Rattle.amqp_link_uses.specs.declared.broker.errors.SendError.{SendError};
ghost use Rattle.amqp_link_uses.specs.declared.broker.resuming.Resumed.{Resumed};

/// Each message that was taken in is queued or under way on one outgoing link, once, until the call that ends it returns where it
/// came from (2.6.12). Each clause says it for any count `f` of messages: one that counts a single message shows that this one is
/// neither lost nor doubled.
pub fn each_message_is_in_one_place()
    // `take` and `take_settled`
    ensures taken { (f : Origin → ℕ) (link : ℕ) (tag : Tag) (old new : BrokerState) → TakesIn link tag old new
        → sum_of_messages f new ≡ sum_of_messages f old + f (record { link = link; tag = Some tag; number = old.next_number }) }
    ensures taken_settled { (f : Origin → ℕ) (link : ℕ) (old new : BrokerState) → TakesSettledIn link old new
        → sum_of_messages f new ≡ sum_of_messages f old + f (record { link = link; tag = None; number = old.next_number }) }

    // `send_next`
    ensures sent { (f : Origin → ℕ) (link : ℕ) (old : BrokerState) (result : Result Forwarded SendError)
        (new : BrokerState) → Forwards link old result new
        → sum_of_messages f new + counted f (done_in result) ≡ sum_of_messages f old }

    // `return_outcome` and `on_incoming_disposition`
    ensures returned { (f : Origin → ℕ) (link : ℕ) (tag : Tag) (outcome : OutcomeSeen) (b : BrokerState)
        → sum_of_messages f (returned link tag outcome b) + counted f (origin_at link tag b.outgoing) ≡ sum_of_messages f b }
    ensures disposed { (f : Origin → ℕ) (link : ℕ) (settled : Bool) (state : Option DeliveryState) (tag : Tag)
        (old : BrokerState) (echo : Bool) (origin : Option Origin) (new : BrokerState)
        → Disposes link settled state tag old echo origin new
        → sum_of_messages f new + counted f origin ≡ sum_of_messages f old }

    // `grant`, `settle`, and any call on an incoming link
    ensures incoming { (f : Origin → ℕ) (link : ℕ) (s : IncomingState) (b : BrokerState)
        → sum_of_messages f (with_incoming link s b) ≡ sum_of_messages f b }

    // `send_attach`, `on_incoming_attach`, and any call on the ledger of an outgoing link
    ensures attached { (f : Origin → ℕ) (link : ℕ) (o p : OutgoingState) (b : BrokerState)
        → slice_get b.outgoing link ≡ Some o → p.under_way ≡ o.under_way
        → sum_of_messages f (with_outgoing link p b) + counted f None ≡ sum_of_messages f b }

    // `resume_next` and `put_back_next`
    ensures resumed { (f : Origin → ℕ) (is_sent : Bool) (link : ℕ) (old : BrokerState)
        (result : Result Resumed SendError) (new : BrokerState) → Resumes is_sent link old result new
        → sum_of_messages f new + counted f (ended_by_step result) ≡ sum_of_messages f old }
{}

/// Credit that was stated, messages that are queued and messages that are under way never pass the room: `grant` and `take` keep
/// within it, and no other call adds to them (2.6.7).
pub fn the_room_is_never_passed()
    // `grant`, whose clause `within` says that it states no more than is free
    ensures granted { (link more : ℕ) (s : IncomingState) (b : BrokerState) → slice_get b.incoming link ≡ Some s
        → more ≤ free b → occupied b ≤ b.room → occupied (with_incoming link (granted more s) b) ≤ b.room }

    // `take` and `take_settled`, whose clause `within` says that one more has room
    ensures taken { (link : ℕ) (tag : Tag) (old new : BrokerState) → TakesIn link tag old new
        → occupied new ≡ occupied old + 1 }
    ensures taken_settled { (link : ℕ) (old new : BrokerState) → TakesSettledIn link old new
        → occupied new ≡ occupied old + 1 }

    // `send_next`
    ensures sent { (link : ℕ) (old : BrokerState) (result : Result Forwarded SendError) (new : BrokerState)
        → Forwards link old result new → occupied new ≤ occupied old }

    // `return_outcome` and `on_incoming_disposition`
    ensures returned { (link : ℕ) (tag : Tag) (outcome : OutcomeSeen) (b : BrokerState)
        → occupied (returned link tag outcome b) ≤ occupied b }
    ensures disposed { (link : ℕ) (settled : Bool) (state : Option DeliveryState) (tag : Tag) (old : BrokerState)
        (echo : Bool) (origin : Option Origin) (new : BrokerState)
        → Disposes link settled state tag old echo origin new → occupied new ≤ occupied old }

    // `settle`, and any call on an incoming link that leaves its credit
    ensures settled { (link : ℕ) (s t : IncomingState) (b : BrokerState) → slice_get b.incoming link ≡ Some s
        → credit_of t ≡ credit_of s → occupied (with_incoming link t b) ≤ occupied b }

    // `send_attach`, `on_incoming_attach`, and any call on the ledger of an outgoing link
    ensures attached { (link : ℕ) (o p : OutgoingState) (b : BrokerState) → slice_get b.outgoing link ≡ Some o
        → p.under_way ≡ o.under_way → occupied (with_outgoing link p b) ≤ occupied b }

    // `resume_next` and `put_back_next`
    ensures resumed { (is_sent : Bool) (link : ℕ) (old : BrokerState) (result : Result Resumed SendError)
        (new : BrokerState) → Resumes is_sent link old result new → occupied new ≤ occupied old }
{}
