//! Messages that a broker takes in.
ghost use Rattle.std.specs.Prelude.{◌≡◌, ◌↔◌, ◌⊎◌, ◌<◌, ◌≤◌, [], Ok, Err, None, Some, IfErr, IfOk, IsSome, IsSomeAnd, MatchOption, OnErr, OnOk, false, true, is_some, slice_get, unwrap_or};
ghost use Rattle.std.specs.VecDeque.{deque_capacity, deque_len};
ghost use Rattle.amqp_link.specs.Taking.{settled_refusal, take_refusal};
ghost use Rattle.amqp_link.specs.Storing.{stage_at};
ghost use Rattle.amqp_link_uses.specs.Brokers.{IsRefusedTake, NoneWaits, TakesAt, TakesFirstAt, TakesIn, TakesOne, TakesSettledIn, TakesSettledOne, occupied};

use crate::broker::{Broker, Incoming, Message, Origin, Progress, TakeInError};
use amqp_link::inbox::TakeError;
use amqp_link::{Delivery, DeliveryTag, Whole};
use std::collections::VecDeque;

// The message of a delivery.
fn message_of(origin: Origin, delivery: Delivery<Whole>) -> Message
    ensures { result ≡ record {
      origin = origin;
      message_format = unwrap_or delivery.message_format 0;
      payload = delivery.message.body.0;
    } }
{
    let message_format = delivery.message_format().unwrap_or(0);
    let Whole(payload) = delivery.into_body();
    Message {
        origin,
        message_format,
        payload,
    }
}

// Makes room for one message more, of which so many may be queued.
fn room_for_one(left: usize, queue: &mut VecDeque<Message>) -> Result<(), TakeInError>
    ensures same { queue.new.items ≡ queue.old.items }
    ensures room { OnOk result ((0 < left) × (deque_len queue.new < deque_capacity queue.new)) }
    ensures refused { IfErr result (λ error. ((error ≡ TakeInError.NoRoom) × (left ≡ 0))
        ⊎ ((error ≡ TakeInError.Inbox TakeError.OutOfMemory) × (0 < left))) }
{
    if left == 0 {
        return Err(TakeInError::NoRoom);
    }
    if queue.reserve(1).is_err() {
        return Err(TakeInError::Inbox(TakeError::OutOfMemory));
    }
    Ok(())
}

impl Incoming {
    // Takes the message of a complete delivery, which has this number.
    fn take(&mut self, tag: &DeliveryTag, link: usize, number: u64) -> Result<Message, TakeInError>
        ensures taken { IfOk result (λ message. TakesOne link tag.now number self.old message self.new) }
        ensures refused { IfErr result (λ error. IsRefusedTake error
            (take_refusal (stage_at self.old.inbox.deliveries tag.now) self.old.inbox.link.output_handle)) }
        ensures left { OnErr result (self.new ≡ self.old) }
    {
        if self.messages.reserve(1).is_err() {
            return Err(TakeInError::Inbox(TakeError::OutOfMemory));
        }
        let Ok(named) = tag.clone() else {
            return Err(TakeInError::Inbox(TakeError::OutOfMemory));
        };
        let Ok(own) = tag.clone() else {
            drop(named);
            return Err(TakeInError::Inbox(TakeError::OutOfMemory));
        };
        match self.inbox.take::<Whole>(tag) {
            Ok(delivery) => {
                let _ = self.messages.insert(named, Progress::Pending(number));
                let origin = Origin {
                    link,
                    tag: Some(own),
                    number,
                };
                Ok(message_of(origin, delivery))
            }
            Err(refused) => {
                drop((named, own));
                Err(TakeInError::Inbox(refused))
            }
        }
    }

    // Takes the message of the first complete delivery that its sender has settled.
    fn take_settled(&mut self, link: usize, number: u64) -> Result<Option<Message>, TakeInError>
        ensures taken { IfOk result (λ taken. TakesSettledOne link number self.old taken self.new) }
        ensures refused { IfErr result (λ error. IsRefusedTake error
            (settled_refusal self.old.inbox.settled self.old.inbox.link.output_handle)) }
        ensures left { OnErr result (self.new ≡ self.old) }
    {
        let taken = match self.inbox.take_settled::<Whole>() {
            Ok(taken) => taken,
            Err(refused) => return Err(TakeInError::Inbox(refused)),
        };
        let Some(delivery) = taken else {
            return Ok(None);
        };
        let origin = Origin {
            link,
            tag: None,
            number,
        };
        Ok(Some(message_of(origin, delivery)))
    }
}

// Takes a message from the incoming link with this number.
fn take_from(
    incoming: &mut Vec<Incoming>,
    link: usize,
    tag: &DeliveryTag,
    number: u64,
) -> Result<Message, TakeInError>
    ensures taken { IfOk result (λ message.
        TakesAt link (TakesOne link tag.now number) incoming.old.items message incoming.new.items) }
    ensures refused { IfErr result (λ error. MatchOption (slice_get incoming.old.items link) (error ≡ TakeInError.NoSuchLink)
        (λ s. IsRefusedTake error (take_refusal (stage_at s.inbox.deliveries tag.now) s.inbox.link.output_handle))) }
    ensures left { OnErr result (incoming.new.items ≡ incoming.old.items) }
{
    let Some(from) = incoming.get_mut(link) else {
        return Err(TakeInError::NoSuchLink);
    };
    match from.take(tag, link, number) {
        Ok(message) => Ok(message),
        Err(error) => Err(error),
    }
}

fn take_settled_from(
    incoming: &mut Vec<Incoming>,
    link: usize,
    number: u64,
) -> Result<Option<Message>, TakeInError>
    ensures taken { IfOk result (λ taken. TakesFirstAt link number incoming.old.items taken incoming.new.items) }
    ensures refused { IfErr result (λ error. MatchOption (slice_get incoming.old.items link) (error ≡ TakeInError.NoSuchLink)
        (λ s. IsRefusedTake error (settled_refusal s.inbox.settled s.inbox.link.output_handle))) }
    ensures left { OnErr result (incoming.new.items ≡ incoming.old.items) }
{
    let Some(from) = incoming.get_mut(link) else {
        return Err(TakeInError::NoSuchLink);
    };
    match from.take_settled(link, number) {
        Ok(taken) => Ok(taken),
        Err(error) => Err(error),
    }
}

impl Broker {
    /// Takes the message of a complete delivery of an incoming link into the queue, as its last one. The delivery stays unsettled
    /// until `settle`.
    ///
    /// Refused in this order, with nothing changed: `NoSuchLink`; `NoRoom` if what is queued, is under way, and may come by the
    /// credit that was stated takes all of the room: the delivery, for which its sender had no credit, stays in its inbox, and the
    /// call is made again once a message is done; and as `take` of the inbox is, of which `OutOfMemory` may come first.
    ///
    /// Its cost grows with the bytes of the message and with the number of links.
    pub fn take(&mut self, link: usize, tag: &DeliveryTag) -> Result<(), TakeInError>
        ensures taken { OnOk result (TakesIn link tag.now self.old self.new) }
        ensures within { OnOk result (occupied self.old < self.old.room) }
        ensures no_such_link { result ≡ Err TakeInError.NoSuchLink ↔ (is_some (slice_get self.old.incoming link) ≡ false) }
        ensures no_room { result ≡ Err TakeInError.NoRoom
            ↔ (IsSome (slice_get self.old.incoming link) × (self.old.room ≤ occupied self.old)) }
        ensures refused { (error : _) → result ≡ Err (TakeInError.Inbox error) → (error ≡ TakeError.OutOfMemory)
            ⊎ IsSomeAnd (slice_get self.old.incoming link) (λ s.
            take_refusal (stage_at s.inbox.deliveries tag.now) s.inbox.link.output_handle ≡ Some error) }
        ensures left { OnErr result (self.new ≡ self.old) }
    {
        if link >= self.incoming.len() {
            return Err(TakeInError::NoSuchLink);
        }
        room_for_one(self.left_to_take(), &mut self.queue)?;
        let taken = take_from(&mut self.incoming, link, tag, self.next_number)?;
        self.queue.push_back_reserved(taken);
        self.next_number = self.next_number.wrapping_add(1);
        Ok(())
    }

    /// Takes the message of the first complete delivery of an incoming link that its sender has settled, and returns whether
    /// there was one. It gets no outcome.
    ///
    /// Refused as `take` is, with nothing changed; and as `take_settled` of the inbox is.
    pub fn take_settled(&mut self, link: usize) -> Result<bool, TakeInError>
        ensures taken { result ≡ Ok true → TakesSettledIn link self.old self.new }
        ensures none { result ≡ Ok false → (self.new ≡ self.old)
            × NoneWaits (slice_get self.old.incoming link) }
        ensures within { OnOk result (occupied self.old < self.old.room) }
        ensures no_such_link { result ≡ Err TakeInError.NoSuchLink ↔ (is_some (slice_get self.old.incoming link) ≡ false) }
        ensures no_room { result ≡ Err TakeInError.NoRoom
            ↔ (IsSome (slice_get self.old.incoming link) × (self.old.room ≤ occupied self.old)) }
        ensures refused { (error : _) → result ≡ Err (TakeInError.Inbox error) → (error ≡ TakeError.OutOfMemory)
            ⊎ IsSomeAnd (slice_get self.old.incoming link) (λ s.
            settled_refusal s.inbox.settled s.inbox.link.output_handle ≡ Some error) }
        ensures left { OnErr result (self.new ≡ self.old) }
    {
        if link >= self.incoming.len() {
            return Err(TakeInError::NoSuchLink);
        }
        room_for_one(self.left_to_take(), &mut self.queue)?;
        let taken = take_settled_from(&mut self.incoming, link, self.next_number)?;
        let Some(taken) = taken else {
            return Ok(false);
        };
        self.queue.push_back_reserved(taken);
        self.next_number = self.next_number.wrapping_add(1);
        Ok(true)
    }
}
