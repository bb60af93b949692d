//! How many messages a broker may still take in.
ghost use Rattle.std.specs.Prelude.{◌≡◌, ◌↔◌, ◌⊎◌, ◌<◌, ◌≤◌, ◌+◌, ◌-◌, None, Some, Err, IfErr, IfOk, IsSome, IsSomeAnd, OnErr, OnOk, false, option_copied, slice_get};
ghost use Rattle.amqp_link.specs.Counts.{stated_flow, with_stated};
ghost use Rattle.amqp_link.specs.Entries.{entry_at};
ghost use Rattle.amqp_link_uses.specs.Brokers;
ghost use Rattle.amqp_link_uses.specs.Brokers.{claimed, granted, granted_flow, held, occupied, with_incoming};

use crate::broker::{Broker, GrantError, Incoming};
use amqp_link::errors::FlowError;
use amqp_link::inbox::Stage;
use amqp_link::types::Target;
use amqp_link::{DeliveryTag, Inbox, LinkExt, LinkFrame};

// What is left of so much room beside the unsettled deliveries of an inbox that were not taken.
fn left_beside_untaken(left: usize, inbox: &Inbox<Target>) -> usize
    ensures { result ≡ left - Brokers.untaken inbox.now }
{
    let mut left = left;
    for (tag, _) in inbox.unsettled() {
        if !is_taken(inbox, tag) {
            left = left.saturating_sub(1);
        }
    }
    left
}

// Whether the delivery with this tag was taken.
fn is_taken(inbox: &Inbox<Target>, tag: &DeliveryTag) -> bool
    ensures { result ≡ Brokers.is_taken (entry_at inbox.now.deliveries tag.now) }
{
    match inbox.get(tag) {
        Some(kept) => kept.stage() == Stage::Taken,
        None => false,
    }
}

// How many deliveries the sender of this link may begin.
fn credit_of(from: &Incoming) -> usize
    ensures { result ≡ Brokers.credit_of from.now }
{
    from.inbox.flow_state().link_credit() as usize
}

// What is left of so much room beside what may come and has come on this link.
fn left_beside(left: usize, from: &Incoming) -> usize
    ensures { result ≡ left - claimed from.now }
{
    let left = left.saturating_sub(credit_of(from));
    left_beside_untaken(left, &from.inbox).saturating_sub(from.inbox.settled_len())
}

impl Incoming {
    // Lets the sender begin so many deliveries more, within so much room.
    fn grant(&mut self, more: u32, room: u32) -> Result<LinkFrame, FlowError>
        requires { (more ≡ 0) ⊎ (self.old.inbox.link.flow_state.link_credit + more ≤ room) }
        ensures flow { IfOk result (λ sent. IsSomeAnd self.old.inbox.link.output_handle (λ handle.
            sent ≡ LinkFrame.Flow (stated_flow (granted_flow more self.old.inbox) handle false false))) }
        ensures after { OnOk result (self.new ≡ granted more self.old) }
        ensures left { OnErr result (self.new ≡ self.old) }
    {
        let credit = self.inbox.flow_state().link_credit() + more;
        self.inbox.send_flow(Some(credit), None, false, false)
    }
}

impl Broker {
    // What is left of the room beside what is queued and under way.
    pub(super) fn left(&self) -> usize
        ensures { result ≡ self.now.room - held self.now }
    {
        let mut left = (self.room as usize).saturating_sub(self.queue.len());
        for outgoing in &self.outgoing {
            left = left.saturating_sub(outgoing.under_way_len());
        }
        left
    }

    // What is left of the room beside what is queued, is under way, and may come by the credit that was stated.
    pub(super) fn left_to_take(&self) -> usize
        ensures { result ≡ self.now.room - occupied self.now }
    {
        let mut left = self.left();
        for from in &self.incoming {
            left = left.saturating_sub(credit_of(from));
        }
        left
    }

    /// How many messages more may come: what is left of the room beside all messages that are queued and under way, the credit
    /// of each incoming link, and the deliveries that have come there and were not taken. A delivery that its sender has
    /// settled counts once it is complete.
    ///
    /// Its cost grows with the number of links, and of the deliveries that they have not settled.
    pub fn free(&self) -> usize
        ensures { result ≡ Brokers.free self.now }
    {
        let mut left = self.left();
        for from in &self.incoming {
            left = left_beside(left, from);
        }
        left
    }

    /// Lets the sender of an incoming link begin so many deliveries more, and returns the flow to send. With 0 it states the
    /// credit again that there is, as after an attach.
    ///
    /// Refused in this order, with nothing changed: `NoSuchLink`; `NoRoom` for more than `free` says; and as `send_flow` of the
    /// inbox is. State credit by no other call.
    ///
    /// Its cost is that of `free`.
    pub fn grant(&mut self, link: usize, more: u32) -> Result<LinkFrame, GrantError>
        ensures flow { IfOk result (λ sent. IsSomeAnd (slice_get self.old.incoming link) (λ s. IsSomeAnd s.inbox.link.output_handle (λ handle.
            sent ≡ LinkFrame.Flow (stated_flow (granted_flow more s.inbox) handle false false)))) }
        ensures after { OnOk result (IsSomeAnd (slice_get self.old.incoming link) (λ s.
            self.new ≡ with_incoming link (granted more s) self.old)) }
        ensures within { OnOk result (more ≤ Brokers.free self.old) }
        ensures no_such_link { result ≡ Err GrantError.NoSuchLink ↔ (slice_get self.old.incoming link ≡ None) }
        ensures no_room { result ≡ Err GrantError.NoRoom
            ↔ (IsSome (slice_get self.old.incoming link) × (Brokers.free self.old < more)) }
        ensures left { OnErr result (self.new ≡ self.old) }
    {
        let free = self.free();
        let Some(from) = self.incoming.get_mut(link) else {
            return Err(GrantError::NoSuchLink);
        };
        if free < more as usize {
            return Err(GrantError::NoRoom);
        }
        let frame = match from.grant(more, self.room) {
            Ok(frame) => frame,
            Err(error) => return Err(GrantError::Link(error)),
        };
        Ok(frame)
    }
}
