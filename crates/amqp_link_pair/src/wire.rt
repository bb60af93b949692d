//! The transfers on their way from the sender to the receiver.
//!
//! A continuation does not name its delivery (2.7.5), so the tag is kept beside the frames of each send. The
//! frames of one send stand together, and are moved in and out without an allocation.
ghost use Rattle.std.specs.Prelude.{◌≡◌, ◌++◌, ◌∷◌, ◌<◌, [], length, drop, OnOk, option_map};
ghost use Rattle.amqp_link_worlds.specs.Wires.{under};
ghost use Rattle.amqp_link_pair.specs.Queues.{first_element, on_wire_of};

use amqp_link_types::frame::LinkFrame;
use amqp_link_types::types::DeliveryTag;
use std::alloc::{AllocError, Global};
use std::collections::VecDeque;
use std::marker::Model;

// The frames of one delivery that are on their way, one at least.
#[derive(Drop)]
struct Batch {
    tag: DeliveryTag,
    frames: VecDeque<LinkFrame>,
}

/// The transfers on their way, in order.
///
/// A contract sees each of them with its delivery's tag, and for how many more deliveries there is room.
#[derive(Drop)]
pub(crate) struct Wire {
    batches: VecDeque<Batch>,
}

impl Model for Wire {
    ghost use Rattle.amqp_link_pair.specs.Queues.{WireAndRoom};

    ghost Value = { WireAndRoom };

    ghost use Rattle.std.specs.Coded.{codes};
    ghost use Rattle.amqp_link_values.specs.contracts.fields.Fields as fields;

    ghost coded = { Prim.hlevel (codes, fields.the_row.coded) };

    ghost use Rattle.amqp_link_pair.specs.QueueViews.{wire_view, HasNoGap};

    ghost view = { wire_view };

    ghost invariant = { HasNoGap };
}

impl Wire {
    // Nothing on its way.
    pub(crate) fn new(alloc: Global) -> Wire
        ensures { result.transfers ≡ [] }
    {
        Wire {
            batches: VecDeque::new(alloc),
        }
    }

    // The next transfer to arrive, and the tag of its delivery.
    pub(crate) fn first(&self) -> Option<(&DeliveryTag, &LinkFrame)>
        ensures { option_map on_wire_of result ≡ first_element self.now.transfers }
    {
        let batch = self.batches.front()?;
        let frame = batch.frames.front()?;
        Some((&batch.tag, frame))
    }

    // Removes the next transfer, and returns its frame.
    pub(crate) fn take_first(&mut self) -> Option<LinkFrame>
        ensures frame { result ≡ option_map (λ next. next.frame) (first_element self.old.transfers) }
        ensures rest { self.new.transfers ≡ drop 1 self.old.transfers }
    {
        let mut batch = self.batches.pop_front()?;
        let frame = batch.frames.pop_front();
        if !batch.frames.is_empty() {
            self.batches.push_front_reserved(batch);
        }
        frame
    }

    // Makes room for one more delivery.
    pub(crate) fn reserve(&mut self) -> Result<(), AllocError>
        ensures same { self.new.transfers ≡ self.old.transfers }
        ensures room { OnOk result (0 < self.new.room) }
    {
        self.batches.reserve(1)
    }

    // Adds the frames of a delivery at the end. There has to be room.
    pub(crate) fn push(&mut self, tag: DeliveryTag, frames: Vec<LinkFrame>)
        requires room { 0 < self.old.room }
        requires some { 0 < length frames.items }
        ensures { self.new.transfers ≡ self.old.transfers ++ under tag frames.items }
    {
        self.batches.push_back_reserved(Batch {
            tag,
            frames: VecDeque::from_vec(frames),
        });
    }

    // Drops all transfers.
    pub(crate) fn clear(&mut self)
        ensures { self.new.transfers ≡ [] }
    {
        self.batches.clear();
    }
}
