//! What follows from the definitions that contracts cite, without any call.
//!
//! Each function here does nothing: its contract is the law.
ghost use Rattle.std.specs.Prelude.{◌≡◌, ◌++◌, List, Some, ℕ};
ghost use Rattle.amqp_link_types.specs.Entries.{Tag, entry_at};
ghost use Rattle.amqp_link_types.specs.declared.types.transfer.Transfer.{Transfer};
ghost use Rattle.amqp_link_inbox.specs.Bytes.{IsHeld, bytes_at, bytes_before};
ghost use Rattle.amqp_link_inbox.specs.Inboxes.{Arrives, InboxState, is_new, resumed_at, store_of, tag_of};
ghost use Rattle.amqp_link_inbox.specs.Storing.{IsStated};
ghost use Rattle.amqp_link_inbox.specs.declared.arrival.Arrived.{Arrived as TheArrived};

use amqp_link_endpoint::endpoint::target::LinkTarget;

/// A transfer changes what is kept and what is stated of its own delivery alone, whatever the peer has sent: of each other
/// tag all stays (2.7.5).
pub fn a_transfer_changes_its_own_delivery<T: LinkTarget>()
    ensures { (old new : InboxState T) → (t : Transfer) → (bytes : List ℕ) → (came : TheArrived)
        → IsStated old.deliveries old.link.unsettled → Arrives old t bytes came new
        → (other : Tag) → (tag_of old t ≡ Some other → ⊥)
        → (entry_at new.deliveries other ≡ entry_at old.deliveries other)
        × (entry_at new.link.unsettled other ≡ entry_at old.link.unsettled other) }
{}

/// After a transfer the bytes that are held of its delivery are those that were held before, up to the place where it resumes
/// the delivery if it says so (3.4.1), none of a new one; and then its own: by the tag, or in the queue once it is complete and
/// settled. A transfer of a delivery that was complete before changes no byte, and of an aborted one none is held (2.7.5).
pub fn bytes_are_those_that_came<T: LinkTarget>()
    ensures { (old new : InboxState T) → (t : Transfer) → (bytes : List ℕ) → (came : TheArrived)
        → IsStated old.deliveries old.link.unsettled → Arrives old t bytes came new
        → (tag : Tag) → tag_of old t ≡ Some tag
        → IsHeld came.arrival tag (bytes_before (is_new old t) (resumed_at old t) (bytes_at old.deliveries tag) ++ bytes)
        (store_of old) (store_of new) }
{}
