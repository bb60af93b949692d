//! A transfer arrives: its payload is added to what is held of its delivery, and the receiver reports that
//! (2.6.12, 2.7.5, 3.4.1).
ghost use Rattle.std.specs.Prelude.{◌≡◌, ◌++◌, not, None, Some, IfOk, IsSomeAnd, OnOk, OnErr};
ghost use Rattle.amqp_link_payloads.specs.Position.{position};
ghost use Rattle.amqp_link_types.specs.Entries.{entry_at};
ghost use Rattle.amqp_link_types.specs.Frames.{payload_of};
ghost use Rattle.amqp_link_core.specs.Held.{held_bytes};
ghost use Rattle.amqp_link_worlds.specs.Receiving.{CanReceive};
ghost use Rattle.amqp_link_worlds.specs.Steps.{held_after, received};
ghost use Rattle.amqp_link_worlds.specs.Wires.{does_begin};
ghost use Rattle.amqp_link_worlds.specs.Worlds.{bytes_in, receiver_entry};
ghost use Rattle.amqp_link_pair.specs.Keeping.{IsReceived, kept_after, with_report};

use crate::deliveries::{Deliveries, Kept};
use crate::receiving::{begin, go_on};
use amqp_link_core::incomplete_transfer::IncompleteTransfer;
use amqp_link_receiver::receiver_link::ReceiverLink;
use amqp_link_types::frame::LinkFrame;
use amqp_link_types::types::{Boxed, DeliveryNumber, DeliveryTag, Target};
use std::alloc::{AllocError, Global};

// Makes the receiver report a front of a delivery. Allocates only if there was no report of it.
fn report(
    receiver: &mut ReceiverLink<Target>,
    tag: &DeliveryTag,
    place: (u32, u64),
) -> Result<(), AllocError>
    ensures after { OnOk result (receiver.new ≡ with_report tag.now place receiver.old) }
    ensures memory { OnErr result (entry_at receiver.old.unsettled tag.now ≡ None) }
    ensures left { OnErr result (receiver.new ≡ receiver.old) }
{
    receiver.on_incomplete_transfer(tag, place.0, place.1)
}

// Begins a delivery with its first transfer, which has this id, in memory of its own.
fn begin_boxed(
    alloc: Global,
    frame: &LinkFrame,
    id: DeliveryNumber,
) -> Result<Boxed<IncompleteTransfer>, AllocError>
    requires { CanReceive None id frame.now }
    ensures { IfOk result (λ held. held ≡ held_after None id frame.now) }
{
    let begun = begin(alloc, frame, id)?;
    Ok(Boxed::new(alloc, begun)?)
}

// What is held once a transfer has arrived, and the receiver's report of it. Returns the position of what is
// held.
fn hold(
    held: &mut Option<Boxed<IncompleteTransfer>>,
    receiver: &mut ReceiverLink<Target>,
    alloc: Global,
    tag: &DeliveryTag,
    frame: &LinkFrame,
    id: DeliveryNumber,
) -> Result<(u32, u64), AllocError>
    requires can { CanReceive held.old id frame.now }
    requires turn { does_begin frame.now ≡ not receiver.old.more }
    requires reported { entry_at receiver.old.unsettled tag.now ≡ receiver_entry held.old }
    ensures held { OnOk result (held.new ≡ Some (held_after held.old id frame.now)) }
    ensures place { IfOk result (λ place. place ≡ position (bytes_in held.old ++ payload_of frame.now)) }
    ensures report { IfOk result (λ place. receiver.new ≡ with_report tag.now place receiver.old) }
    ensures left { OnErr result ((held.new ≡ held.old) × (receiver.new ≡ receiver.old)) }
{
    let begins_delivery = receiver.begins_delivery();
    match held {
        Some(held) => {
            go_on(held, begins_delivery, frame, id)?;
            let place = held.position();
            report(receiver, tag, place)?;
            Ok(place)
        }
        None => {
            let begun = begin_boxed(alloc, frame, id)?;
            let place = begun.position();
            if let Err(refused) = report(receiver, tag, place) {
                drop(begun);
                return Err(refused);
            }
            *held = Some(begun);
            Ok(place)
        }
    }
}

impl Kept {
    // The next transfer of the delivery arrives. Returns the position of what is held, and whether it was the
    // last.
    fn receive(
        &mut self,
        receiver: &mut ReceiverLink<Target>,
        alloc: Global,
        tag: &DeliveryTag,
        frame: &LinkFrame,
        id: DeliveryNumber,
    ) -> Result<(u32, u64, bool), AllocError>
        requires can { CanReceive self.old.progress.held id frame.now }
        requires turn { does_begin frame.now ≡ not receiver.old.more }
        requires reported { entry_at receiver.old.unsettled tag.now
            ≡ receiver_entry self.old.progress.held }
        ensures done { OnOk result (self.new ≡ kept_after self.old id frame.now) }
        ensures place { IfOk result (λ came. (came.0, came.1)
            ≡ position (bytes_in self.old.progress.held ++ payload_of frame.now)) }
        ensures whole { IfOk result (λ came. came.2 ≡ (received self.old.progress id frame.now).whole) }
        ensures report { IfOk result (λ came.
            receiver.new ≡ with_report tag.now (came.0, came.1) receiver.old) }
        ensures left { OnErr result ((self.new ≡ self.old) × (receiver.new ≡ receiver.old)) }
    {
        let (number, offset) = hold(&mut self.progress.held, receiver, alloc, tag, frame, id)?;
        let has_more = frame.has_more();
        self.progress.whole = self.progress.whole || !has_more;
        self.is_under_way = has_more;
        Ok((number, offset, self.progress.whole))
    }
}

impl Deliveries {
    // The next transfer of a delivery arrives, with this id if it is a first one. Returns the position of
    // what is held, and whether the last transfer has arrived. Refused only if it is out of memory, with
    // nothing changed.
    pub(crate) fn receive(
        &mut self,
        receiver: &mut ReceiverLink<Target>,
        alloc: Global,
        tag: &DeliveryTag,
        frame: &LinkFrame,
        id: DeliveryNumber,
    ) -> Result<(u32, u64, bool), AllocError>
        requires can { IsSomeAnd (entry_at self.old tag.now) (λ kept. CanReceive kept.progress.held id frame.now
            × (entry_at receiver.old.unsettled tag.now ≡ receiver_entry kept.progress.held)) }
        requires turn { does_begin frame.now ≡ not receiver.old.more }
        ensures done { IfOk result (λ came. IsReceived self.old receiver.old tag.now id frame.now
            (came.0, came.1) came.2 self.new receiver.new) }
        ensures left { OnErr result ((self.new ≡ self.old) × (receiver.new ≡ receiver.old)) }
    {
        let Some(kept) = self.entries.get_mut(tag) else {
            unreachable!()
        };
        kept.receive(receiver, alloc, tag, frame, id)
    }
}
