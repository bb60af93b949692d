//! The frames under way to the receiver.
//!
//! The frames of one send are a batch, and so is one reply, so that they are moved in and out without an
//! allocation.
ghost use Rattle.std.specs.Prelude.{◌≡◌, ◌++◌, ◌∷◌, ◌<◌, [], length, drop, OnOk, option_copied, MatchOption};
ghost use Rattle.amqp_link_credit.specs.Queues.{front_of};

use amqp_link_types::frame::LinkFrame;
use std::alloc::{AllocError, Global};
use std::collections::VecDeque;
use std::marker::Model;

/// The frames under way, in order.
///
/// A contract sees each of them, and for how many more batches there is room.
#[derive(Drop)]
pub(crate) struct Queue {
    batches: VecDeque<VecDeque<LinkFrame>>,
}

impl Model for Queue {
    ghost use Rattle.amqp_link_credit.specs.Queues.{QueueAndRoom};

    ghost Value = { QueueAndRoom };

    ghost use Rattle.std.specs.Coded.{codes};
    ghost use Rattle.amqp_link_values.specs.contracts.fields.Fields as fields;

    ghost coded = { Prim.hlevel (codes, fields.the_row.coded) };

    ghost use Rattle.amqp_link_credit.specs.QueueViews.{queue_view, HasNoEmptyBatch};

    ghost view = { queue_view };

    ghost invariant = { HasNoEmptyBatch };
}

impl Queue {
    // Nothing under way.
    pub(crate) fn new(alloc: Global) -> Queue
        ensures { result.frames ≡ [] }
    {
        Queue {
            batches: VecDeque::new(alloc),
        }
    }

    // The next frame to arrive.
    pub(crate) fn first(&self) -> Option<&LinkFrame>
        ensures { option_copied result ≡ front_of self.now.frames }
    {
        self.batches.front()?.front()
    }

    // Removes the next frame, and returns it.
    pub(crate) fn take_first(&mut self) -> Option<LinkFrame>
        ensures { MatchOption result
            ((self.old.frames ≡ []) × (self.new.frames ≡ []))
            (λ frame. self.old.frames ≡ frame ∷ self.new.frames) }
    {
        let mut batch = self.batches.pop_front()?;
        let frame = batch.pop_front();
        if !batch.is_empty() {
            self.batches.push_front_reserved(batch);
        }
        frame
    }

    // Makes room for one more batch.
    pub(crate) fn reserve(&mut self) -> Result<(), AllocError>
        ensures same { self.new.frames ≡ self.old.frames }
        ensures room { OnOk result (0 < self.new.room) }
    {
        self.batches.reserve(1)
    }

    // Adds frames at the end. There has to be room.
    pub(crate) fn push(&mut self, frames: VecDeque<LinkFrame>)
        requires room { 0 < self.old.room }
        requires some { 0 < length frames.items }
        ensures { self.new.frames ≡ self.old.frames ++ frames.items }
    {
        self.batches.push_back_reserved(frames);
    }
}
