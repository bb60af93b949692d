//! Complete deliveries that their sender has settled, in the order in which they became so.
ghost use Rattle.std.specs.Prelude.{◌≡◌, ◌++◌, ◌∷◌, ◌<◌, [], length, OnOk, IfSome, IfNone};

use amqp_link_core::incomplete_transfer::IncompleteTransfer;
use std::alloc::{AllocError, Global};
use std::collections::VecDeque;
use std::marker::Model;

/// The deliveries, the first one first.
///
/// A contract sees the list, and for how many more there is room.
#[derive(Drop)]
pub(crate) struct Settled {
    queue: VecDeque<IncompleteTransfer>,
}

impl Model for Settled {
    ghost use Rattle.amqp_link_inbox.specs.Queues.{HeldAndRoom, queue_view};

    ghost Value = { HeldAndRoom };

    ghost use Rattle.std.specs.Coded.{codes};
    ghost use Rattle.amqp_link_values.specs.contracts.fields.Fields as fields;

    ghost coded = { Prim.hlevel (codes, fields.the_row.coded) };

    ghost view = { queue_view };
}

impl Settled {
    pub(crate) fn new(alloc: Global) -> Settled
        ensures { result.list ≡ [] }
    {
        Settled {
            queue: VecDeque::new(alloc),
        }
    }

    pub(crate) fn len(&self) -> usize
        ensures { result ≡ length self.now.list }
    {
        self.queue.len()
    }

    // Makes room for one more.
    pub(crate) fn reserve(&mut self) -> Result<(), AllocError>
        ensures same { self.new.list ≡ self.old.list }
        ensures room { OnOk result (0 < self.new.room) }
    {
        self.queue.reserve(1)
    }

    // Adds one at the end. There has to be room.
    pub(crate) fn push(&mut self, held: IncompleteTransfer)
        requires { 0 < self.old.room }
        ensures { self.new.list ≡ self.old.list ++ held ∷ [] }
    {
        self.queue.push_back_reserved(held);
    }

    // Removes the first one, so that there is room to put it back.
    pub(crate) fn take_first(&mut self) -> Option<IncompleteTransfer>
        ensures taken { IfSome result (λ held. (self.old.list ≡ held ∷ self.new.list) × (0 < self.new.room)) }
        ensures none { IfNone result ((self.old.list ≡ []) × (self.new.list ≡ [])) }
    {
        self.queue.pop_front()
    }

    // Puts one back that was the first.
    pub(crate) fn put_first(&mut self, held: IncompleteTransfer)
        requires { 0 < self.old.room }
        ensures { self.new.list ≡ held ∷ self.old.list }
    {
        self.queue.push_front_reserved(held);
    }
}
