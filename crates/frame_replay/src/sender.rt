//! A sender's link, replayed.
use crate::endpoint::{names, parts_of, peer_is_answering, recorded, replied};
use crate::refusal::{refused, refused_with, taken};
use crate::returned::{add_all_returned, add_given_back, add_reply, add_returned};
use amqp_link_endpoint::endpoint::{LinkAttach, LinkDetach, LinkExt};
use amqp_link_ledger::ledger::OutcomeLedger;
use amqp_link_sender::sender_link::{DispositionAnswer, SenderLink, Sending, Waiting};
use amqp_link_types::delivery::Outcomes;
use amqp_link_types::frame::{LinkFrame, LinkTransfer};
use amqp_link_types::types::{
    Attach, Boxed, DeliveryNumber, DeliveryTag, Detach, Disposition, LinkFlow, OutputHandle,
    TargetArchetype,
};
use frame_rows::row::{Call, DisposedOne, NewLink, Sent, StateName};
use replay_report::answer::{Answer, StepError};
use replay_report::made::{Made, copy_of_state};
use std::alloc::Global;

/// A sender's endpoint, the ids that its session has given the deliveries, and whether its user keeps credit that is to be
/// used up at once.
#[derive(Drop)]
pub struct SenderEnd {
    alloc: Global,
    ledger: OutcomeLedger<TargetArchetype>,
    ids: Vec<(DeliveryNumber, DeliveryTag)>,
    is_draining: bool,
}

impl SenderEnd {
    /// The endpoint of a new link.
    pub fn new(alloc: Global, link: NewLink) -> Result<SenderEnd, StepError> {
        let link = SenderLink::new(alloc, parts_of(link));
        let Ok(ledger) = OutcomeLedger::new(alloc, link) else {
            return Err(StepError::OutOfMemory);
        };
        Ok(SenderEnd {
            alloc,
            ledger,
            ids: Vec::new(alloc),
            is_draining: false,
        })
    }

    /// Its link-credit.
    pub fn credit(&self) -> u32 {
        self.ledger.flow_state().link_credit()
    }

    /// How many deliveries it has not settled.
    pub fn unsettled_len(&self) -> usize {
        self.ledger.unsettled_map().len()
    }

    // ---- frames that arrive

    /// A frame of the receiver's arrives.
    pub fn take(&mut self, made: &mut Made, frame: LinkFrame) -> Result<Answer, StepError> {
        match frame {
            LinkFrame::Attach(attach) => self.take_attach(Boxed::into_inner(attach)),
            LinkFrame::Flow(flow) => self.take_flow(made, flow),
            LinkFrame::RemoteTransfer(transfer)
            | LinkFrame::FirstTransfer(transfer)
            | LinkFrame::TransferContinuation(transfer) => self.take_transfer(transfer),
            LinkFrame::Disposition(disposition) => self.take_disposition(made, &disposition),
            LinkFrame::Detach(detach) => self.take_detach(made, detach),
        }
    }

    // What is to be resumed is not: no row states a resumption.
    fn take_attach(&mut self, attach: Attach) -> Result<Answer, StepError> {
        self.is_draining = false;
        taken(self.alloc, self.ledger.on_incoming_attach(attach))
    }

    // The user keeps the credit of a flow that drains, and may send with it, until a row states that it is given back.
    fn take_flow(&mut self, made: &mut Made, flow: LinkFlow) -> Result<Answer, StepError> {
        self.is_draining = flow.drain;
        add_reply(
            self.alloc,
            made,
            self.ledger.on_incoming_flow_keeping_credit(flow),
        )
    }

    // A sender takes no transfer.
    fn take_transfer(&mut self, transfer: LinkTransfer) -> Result<Answer, StepError> {
        let LinkTransfer {
            input_handle: _,
            performative,
            payload,
        } = transfer;
        taken(
            self.alloc,
            self.ledger.on_incoming_transfer(performative, payload),
        )
    }

    // Each delivery that the disposition names, by the tag that the session keeps for its id. If it is to be answered, the
    // user does that, by a call of its own.
    fn take_disposition(
        &mut self,
        made: &mut Made,
        disposition: &Disposition,
    ) -> Result<Answer, StepError> {
        let settled = disposition.settled;
        for (id, tag) in &self.ids {
            if !names(disposition, *id) {
                continue;
            }
            let state = copy_of_state(&disposition.state)?;
            match self.ledger.on_incoming_disposition(settled, state, tag) {
                Ok(answer) => add_outcome(made, answer)?,
                Err(error) => return refused(self.alloc, error),
            }
        }
        Ok(Answer::Taken)
    }

    fn take_detach(&mut self, made: &mut Made, detach: Detach) -> Result<Answer, StepError> {
        if peer_is_answering(*self.ledger.local_state()) {
            return replied(self.alloc, self.ledger.on_detach_reply(detach));
        }
        match self.ledger.on_incoming_detach(&detach, true) {
            Ok((reply, outcomes)) => {
                drop(outcomes);
                made.add_detach(reply)?;
                recorded(self.alloc, self.ledger.apply_remote_detach_outcome(detach))
            }
            Err(error) => refused(self.alloc, error),
        }
    }

    // ---- calls of the user

    /// The user makes a call.
    pub fn call(&mut self, made: &mut Made, call: Call) -> Result<Answer, StepError> {
        match call {
            Call::Attach(handle) => self.attach(made, handle),
            Call::Send(id, delivery) => self.send(made, id, delivery),
            Call::DisposeSent(tag, disposed) => self.dispose(made, &tag, disposed),
            Call::Detach(closed) => add_returned(
                self.alloc,
                made,
                self.ledger.send_detach(closed, None),
            ),
            other => {
                drop(other);
                Err(StepError::OtherRole)
            }
        }
    }

    /// The user has nothing more to send: gives the credit back that it keeps of a flow that drains, if there was one (2.6.7).
    pub fn give_back(&mut self, made: &mut Made) -> Result<(), StepError> {
        if !self.is_draining {
            return Ok(());
        }
        self.is_draining = false;
        add_given_back(made, self.ledger.give_back_credit())
    }

    fn attach(&mut self, made: &mut Made, handle: OutputHandle) -> Result<Answer, StepError> {
        *self.ledger.output_handle_mut() = Some(handle);
        add_returned(self.alloc, made, first_of(self.ledger.send_attach(false)))
    }

    fn send(
        &mut self,
        made: &mut Made,
        id: DeliveryNumber,
        delivery: Sent,
    ) -> Result<Answer, StepError> {
        let sending = self.ledger.send_payload_with_tag(
            Waiting::Nothing,
            delivery.tag.as_bytes(),
            &delivery.payload,
            delivery.format.unwrap_or(0),
            Some(delivery.settled),
            None,
            false,
        );
        match sending {
            Ok(Sending::Sent { settlement, frames }) => {
                drop(settlement);
                self.ids.push((id, delivery.tag))?;
                made.add_sent(frames.as_slice())?;
                Ok(Answer::Taken)
            }
            Ok(Sending::CreditMissing) => refused_with(self.alloc, "there is no credit"),
            Err(error) => refused(self.alloc, error),
        }
    }

    fn dispose(
        &mut self,
        made: &mut Made,
        tag: &DeliveryTag,
        disposed: DisposedOne,
    ) -> Result<Answer, StepError> {
        let DisposedOne { id, settled, state } = disposed;
        let Some(state) = state else {
            return Err(StepError::OtherRole);
        };
        let disposed = first_of(self.ledger.dispose(id, tag, settled, state, false));
        add_all_returned(self.alloc, made, disposed)
    }
}

// What a call makes, without the outcomes that it returns beside that: no row states them.
fn first_of<T, E>(returned: Result<(T, Outcomes), E>) -> Result<T, E> {
    match returned {
        Ok((made, outcomes)) => {
            drop(outcomes);
            Ok(made)
        }
        Err(error) => Err(error),
    }
}

// Adds the outcome that a disposition has given a delivery, if it has and there is a state.
fn add_outcome(made: &mut Made, answer: DispositionAnswer) -> Result<(), StepError> {
    let Some((tag, outcome)) = answer.outcome else {
        return Ok(());
    };
    if let Ok(Some(state)) = outcome {
        made.add_outcome(tag, StateName::of(&state))?;
    }
    Ok(())
}
