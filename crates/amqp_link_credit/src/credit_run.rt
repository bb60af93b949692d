//! Two attached endpoints of a link, and the frames under way between them.
//!
//! The receiver grants credit while transfers are under way, the sender spends it, and frames arrive one by one
//! in the order in which they were sent. Nothing is lost or resumed. Delivery-counts wrap.
ghost use Rattle.std.specs.Prelude.{◌≡◌, ◌≤◌, true, false, IfOk, IsErrOf, IsSomeAnd, OnOk, OnErr};
ghost use Rattle.amqp_link_types.specs.Refusals.{AnswersOrOutOfMemory, AnswersThenOutOfMemory};
ghost use Rattle.amqp_link_pair.specs.Endpoints.{IsFlow};
ghost use Rattle.amqp_link_credit.specs.CreditCalls.{new_run, GrantsCredit, SendsDelivery, TakesPiece, Completes, TakesFlow, ArrivesForward, TakesBack, IsTransfer};
ghost use Rattle.amqp_link_credit.specs.CreditCalls.{new_tests, granting_tests, sending_tests, forward_tests, back_tests};
ghost use Rattle.amqp_link_credit.specs.CreditWorlds.{KeepsCredit, IsCreditWorld};
ghost use Rattle.amqp_link_credit.specs.Queues.{front_of};

mod attaching;
mod flows;
mod receiving;
mod sending;

use crate::error::CreditRunError;
use crate::queue::Queue;
use amqp_link_core::incomplete_transfer::IncompleteTransfer;
use amqp_link_endpoint::endpoint::LinkExt;
use amqp_link_pair::Sent;
use amqp_link_pair::receiving::take_off;
use amqp_link_payloads::message::whole::Whole;
use amqp_link_receiver::receiver_link::ReceiverLink;
use amqp_link_sender::sender_link::SenderLink;
use amqp_link_types::delivery::Delivery;
use amqp_link_types::frame::LinkFrame;
use amqp_link_types::types::{DeliveryNumber, LinkFlow, Payload, SequenceNo, Target};
use attaching::attached_links;
use flows::{is_lowered, queue_reply, state_credit, take_at_receiver, take_at_sender};
use receiving::{hand_out, hold, set, with_last};
use sending::{refusal_without_room, send_on};
use std::alloc::{AllocError, Global};
use std::collections::VecDeque;
use std::marker::Model;

/// What arrived at the receiver.
#[derive(Debug, Drop)]
pub enum Arrival {
    /// A transfer of a delivery that is not complete yet.
    Piece,
    /// The last transfer of a delivery, which is complete.
    Completed(Delivery<Whole>),
    /// A flow.
    Flow,
}

/// Two attached endpoints, and the frames under way between them.
#[derive(Drop)]
pub struct CreditRun {
    alloc: Global,
    sender: SenderLink<Target>,
    receiver: ReceiverLink<Target>,
    held: Option<IncompleteTransfer>,
    forward: Queue,
    back: VecDeque<LinkFlow>,
    stated: SequenceNo,
}

impl Model for CreditRun {
    ghost use Rattle.amqp_link_credit.specs.CreditWorlds.{CreditWorld};

    ghost Value = { CreditWorld };

    ghost use Rattle.std.specs.Coded.{codes};
    ghost use Rattle.amqp_link_values.specs.contracts.fields.Fields as fields;

    ghost coded = { Prim.hlevel (codes, fields.the_row.coded) };

    ghost use Rattle.amqp_link_credit.specs.RunViews.{run_of, IsKeptRun};

    ghost view = { run_of };

    ghost invariant = { IsKeptRun };
}

impl CreditRun {
    /// Two endpoints of the link "l" at handle 0, attached at this frame limit in bytes, with this
    /// delivery-count and no credit (2.6.3).
    ///
    /// Refused in this order: `LimitTooSmall`, if the limit is under 29, or if the attach of an endpoint does not
    /// fit a frame; `OutOfMemory`. The attaches are made to be measured, so `OutOfMemory` may come before that
    /// test, though not if the limit is under 29.
    pub fn new(
        alloc: Global,
        initial_delivery_count: SequenceNo,
        limit: u32,
    ) -> Result<CreditRun, CreditRunError>
        ensures done { IfOk result (λ run. run ≡ new_run initial_delivery_count limit) }
        ensures refused { AnswersOrOutOfMemory CreditRunError.OutOfMemory
            result (new_tests initial_delivery_count limit) }
        ensures memory { IsErrOf result CreditRunError.OutOfMemory → 29 ≤ limit }
        ensures credit { IfOk result (λ run. KeepsCredit run) }
        ensures kept { IfOk result (λ run. IsCreditWorld run) }
    {
        let (sender, receiver) = attached_links(alloc, initial_delivery_count, limit)?;
        Ok(CreditRun {
            alloc,
            sender,
            receiver,
            held: None,
            forward: Queue::new(alloc),
            back: VecDeque::new(alloc),
            stated: initial_delivery_count,
        })
    }

    /// The receiver sets its link-credit, and the flow that states it is under way to the sender (2.6.7). With
    /// `drain` the sender is to use the credit up; with `echo` it is to reply.
    ///
    /// Refused in this order, with nothing changed: `CreditTooLarge`, over 2^31 - 1; `LimitLowered`, if the
    /// receiver's delivery-count + this credit lies before what an earlier flow stated; `OutOfMemory`.
    pub fn grant(&mut self, credit: u32, drain: bool, echo: bool) -> Result<(), CreditRunError>
        ensures done { OnOk result (GrantsCredit self.old credit drain echo self.new) }
        ensures refused { AnswersThenOutOfMemory CreditRunError.OutOfMemory result (granting_tests self.old credit) }
        ensures left { OnErr result (self.new ≡ self.old) }
        ensures credit { KeepsCredit self.new }
        ensures kept { IsCreditWorld self.new }
    {
        let count = self.receiver.flow_state().delivery_count();
        if credit > i32::MAX as u32 {
            return Err(CreditRunError::CreditTooLarge);
        }
        if is_lowered(self.stated, count, credit) {
            return Err(CreditRunError::LimitLowered);
        }
        self.back.reserve(1)?;
        // From here on nothing can fail.
        self.stated = count.wrapping_add(credit);
        let flow = state_credit(&mut self.receiver, credit, drain, echo);
        self.back.push_back_reserved(flow);
        Ok(())
    }

    /// Sends a payload as a delivery, settled or not, for one credit. Returns its tag and the number of its
    /// transfers, which are under way to the receiver.
    ///
    /// Refused in this order, with nothing changed: `PayloadTooLong` (2^32 bytes or more); `CreditMissing`;
    /// `TagPending`, for an unsettled delivery; `OutOfMemory`.
    ///
    /// Its cost is that of `SenderLink::send_payload`.
    pub fn send(&mut self, payload: &Payload, settled: bool) -> Result<Sent, CreditRunError>
        ensures done { IfOk result (λ sent. SendsDelivery self.old payload.now settled sent.tag sent.frames self.new) }
        ensures refused { AnswersThenOutOfMemory CreditRunError.OutOfMemory
            result (sending_tests self.old payload.now settled) }
        ensures left { OnErr result (self.new ≡ self.old) }
        ensures credit { KeepsCredit self.new }
        ensures kept { IsCreditWorld self.new }
    {
        let credit = self.sender.flow_state().link_credit();
        if payload.len() > u32::MAX as usize {
            return Err(CreditRunError::PayloadTooLong);
        }
        // Without credit no room is made.
        if credit == 0 {
            return Err(CreditRunError::CreditMissing);
        }
        if self.forward.reserve().is_err() {
            return Err(refusal_without_room(&self.sender, payload, settled));
        }
        let (tag, frames) = send_on(&mut self.sender, payload, settled)?;
        let count = frames.len();
        self.forward.push(VecDeque::from_vec(frames));
        Ok(Sent { tag, frames: count })
    }

    /// The first frame under way arrives at the receiver, with this delivery id if it is the first transfer of a
    /// delivery. A complete delivery is handed out, and takes one credit.
    ///
    /// Refused in this order, with nothing changed, so that the frame stays under way: `QueueEmpty`;
    /// `OutOfMemory`.
    ///
    /// The cost of a transfer grows with its bytes, which are read for the position; that of a last one also
    /// with the bytes and the number of transfers of its delivery, which are joined.
    pub fn forward_arrives(&mut self, id: DeliveryNumber) -> Result<Arrival, CreditRunError>
        ensures done { IfOk result (λ came. ArrivesForward self.old id came self.new) }
        ensures refused { AnswersThenOutOfMemory CreditRunError.OutOfMemory result (forward_tests self.old) }
        ensures left { OnErr result (self.new ≡ self.old) }
        ensures credit { KeepsCredit self.new }
        ensures kept { IsCreditWorld self.new }
    {
        let Some(frame) = self.forward.first() else {
            return Err(CreditRunError::QueueEmpty);
        };
        if frame.as_transfer().is_none() {
            self.take_flow();
            Ok(Arrival::Flow)
        } else if frame.has_more() {
            self.take_piece(id)?;
            Ok(Arrival::Piece)
        } else {
            Ok(Arrival::Completed(self.complete(id)?))
        }
    }

    // The next frame, which is a flow, arrives.
    fn take_flow(&mut self)
        requires { IsSomeAnd (front_of self.old.forward) IsFlow }
        ensures done { TakesFlow self.old self.new }
        ensures kept { IsCreditWorld self.new }
    {
        let Some(frame) = self.forward.take_first() else {
            unreachable!()
        };
        take_at_receiver(&mut self.receiver, frame);
    }

    // The next frame arrives: a transfer, which is not its delivery's last.
    fn take_piece(&mut self, id: DeliveryNumber) -> Result<(), AllocError>
        requires { IsSomeAnd (front_of self.old.forward) (λ f. IsTransfer f true) }
        ensures done { OnOk result (TakesPiece self.old id self.new) }
        ensures left { OnErr result (self.new ≡ self.old) }
        ensures kept { IsCreditWorld self.new }
    {
        let Some(frame) = self.forward.first() else {
            unreachable!()
        };
        let begins_delivery = self.receiver.begins_delivery();
        hold(&mut self.held, begins_delivery, self.alloc, frame, id)?;
        // From here on nothing can fail.
        let Some(frame) = self.forward.take_first() else {
            unreachable!()
        };
        take_off(&mut self.receiver, frame);
        Ok(())
    }

    // The next frame arrives: the last transfer of a delivery.
    fn complete(&mut self, id: DeliveryNumber) -> Result<Delivery<Whole>, AllocError>
        requires { IsSomeAnd (front_of self.old.forward) (λ f. IsTransfer f false) }
        ensures done { IfOk result (λ delivery. Completes self.old id delivery self.new) }
        ensures left { OnErr result (self.new ≡ self.old) }
        ensures kept { IsCreditWorld self.new }
    {
        let Some(frame) = self.forward.first() else {
            unreachable!()
        };
        let begins_delivery = self.receiver.begins_delivery();
        let whole = with_last(&self.held, begins_delivery, self.alloc, frame, id)?;
        let delivery = hand_out(&mut self.receiver, whole)?;
        // From here on nothing can fail.
        set(&mut self.held, None);
        let Some(frame) = self.forward.take_first() else {
            unreachable!()
        };
        take_off(&mut self.receiver, frame);
        Ok(delivery)
    }

    /// The first flow under way arrives at the sender, whose reply is then under way to the receiver. Returns
    /// whether there is one: to a flow with `drain` or `echo` (2.6.7).
    ///
    /// Refused in this order, with nothing changed, so that the flow stays under way: `QueueEmpty`;
    /// `OutOfMemory`.
    pub fn back_arrives(&mut self) -> Result<bool, CreditRunError>
        ensures done { IfOk result (λ replied. TakesBack self.old replied self.new) }
        ensures refused { AnswersThenOutOfMemory CreditRunError.OutOfMemory result (back_tests self.old) }
        ensures left { OnErr result (self.new ≡ self.old) }
        ensures credit { KeepsCredit self.new }
        ensures kept { IsCreditWorld self.new }
    {
        if self.back.is_empty() {
            return Err(CreditRunError::QueueEmpty);
        }
        let mut batch: VecDeque<LinkFrame> = VecDeque::new(self.alloc);
        batch.reserve(1)?;
        self.forward.reserve()?;
        // From here on nothing can fail.
        let Some(flow) = self.back.pop_front() else {
            unreachable!()
        };
        let replied = flow.drain || flow.echo;
        let reply = take_at_sender(&mut self.sender, flow);
        queue_reply(&mut self.forward, batch, reply);
        Ok(replied)
    }

    /// The sender. Does not allocate.
    pub fn sender(&self) -> &SenderLink<Target>
        ensures sender { result.now ≡ self.now.sender }
        ensures credit { KeepsCredit self.now }
        ensures kept { IsCreditWorld self.now }
    {
        &self.sender
    }

    /// The receiver. Does not allocate.
    pub fn receiver(&self) -> &ReceiverLink<Target>
        ensures receiver { result.now ≡ self.now.receiver }
        ensures credit { KeepsCredit self.now }
        ensures kept { IsCreditWorld self.now }
    {
        &self.receiver
    }
}
