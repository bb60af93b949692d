//! A receiver's link, replayed.
use crate::endpoint::{names, parts_of, peer_is_answering, recorded, replied};
use crate::refusal::{refused, refused_with, taken};
use crate::returned::{add_all_returned, add_reply, add_returned};
use amqp_link_endpoint::endpoint::{LinkDetach, LinkExt};
use amqp_link_inbox::{Arrival, Arrived, Inbox, TakeError};
use amqp_link_types::delivery::Delivery;
use amqp_link_types::frame::{LinkFrame, LinkTransfer};
use amqp_link_types::types::{
    Attach, Boxed, DeliveryNumber, DeliveryState, DeliveryTag, Detach, Disposition, OutputHandle,
    TargetArchetype, Whole,
};
use frame_rows::row::{Call, HandedOut, NewLink};
use replay_report::answer::{Answer, StepError};
use replay_report::made::{Made, copy_of_state};
use std::alloc::Global;

/// A receiver's endpoint, and the deliveries that it has handed out, by the ids of their session.
#[derive(Drop)]
pub struct ReceiverEnd {
    alloc: Global,
    inbox: Inbox<TargetArchetype>,
    ids: Vec<(DeliveryNumber, DeliveryTag)>,
    records: u64,
    is_under_way: bool,
}

impl ReceiverEnd {
    /// The endpoint of a new link.
    pub fn new(alloc: Global, link: NewLink) -> ReceiverEnd {
        ReceiverEnd {
            alloc,
            inbox: Inbox::new(alloc, parts_of(link)),
            ids: Vec::new(alloc),
            records: 0,
            is_under_way: false,
        }
    }

    /// Its link-credit.
    pub fn credit(&self) -> u32 {
        self.inbox.flow_state().link_credit()
    }

    /// How many deliveries it has not settled.
    pub fn unsettled_len(&self) -> usize {
        self.inbox.unsettled_map().len()
    }

    /// How many deliveries its session was told to keep.
    pub fn records(&self) -> u64 {
        self.records
    }

    // ---- frames that arrive

    /// A frame of the sender's arrives.
    pub fn take(&mut self, made: &mut Made, frame: LinkFrame) -> Result<Answer, StepError> {
        match frame {
            LinkFrame::Attach(attach) => self.take_attach(Boxed::into_inner(attach)),
            LinkFrame::Flow(flow) => add_reply(self.alloc, made, self.inbox.on_incoming_flow(flow)),
            LinkFrame::RemoteTransfer(transfer)
            | LinkFrame::FirstTransfer(transfer)
            | LinkFrame::TransferContinuation(transfer) => self.take_transfer(made, transfer),
            LinkFrame::Disposition(disposition) => self.take_disposition(&disposition),
            LinkFrame::Detach(detach) => self.take_detach(made, detach),
        }
    }

    fn take_attach(&mut self, attach: Attach) -> Result<Answer, StepError> {
        self.is_under_way = false;
        taken(self.alloc, self.inbox.on_incoming_attach(attach))
    }

    // A delivery is handed out as soon as it is complete.
    fn take_transfer(
        &mut self,
        made: &mut Made,
        transfer: LinkTransfer,
    ) -> Result<Answer, StepError> {
        let LinkTransfer {
            input_handle: _,
            performative,
            payload,
        } = transfer;
        match self.inbox.on_incoming_transfer(performative, payload) {
            Ok(arrived) => self.hand_out(made, arrived),
            Err(refusal) => refused(self.alloc, refusal.error),
        }
    }

    fn hand_out(&mut self, made: &mut Made, arrived: Arrived) -> Result<Answer, StepError> {
        self.is_under_way = arrived.tag.is_none();
        if arrived.session.is_some() {
            self.records = self.records.saturating_add(1);
        }
        let taken = match (arrived.arrival, &arrived.tag) {
            (Arrival::Complete, Some(tag)) => self.take_complete(made, tag),
            (Arrival::CompleteSettled, _) => self.take_settled(made),
            _ => Ok(Answer::Taken),
        };
        drop(arrived);
        taken
    }

    fn take_complete(&mut self, made: &mut Made, tag: &DeliveryTag) -> Result<Answer, StepError> {
        match self.inbox.take::<Whole>(tag) {
            Ok(delivery) => self.keep(made, delivery, false),
            Err(error) => refused(self.alloc, error),
        }
    }

    fn take_settled(&mut self, made: &mut Made) -> Result<Answer, StepError> {
        match self.inbox.take_settled::<Whole>() {
            Ok(Some(delivery)) => self.keep(made, delivery, true),
            Ok(None) => refused(self.alloc, TakeError::UnknownTag),
            Err(error) => refused(self.alloc, error),
        }
    }

    // Keeps the id of a delivery that is handed out.
    fn keep(
        &mut self,
        made: &mut Made,
        delivery: Delivery<Whole>,
        settled: bool,
    ) -> Result<Answer, StepError> {
        let id = delivery.delivery_id();
        let tag = delivery.delivery_tag().clone()?;
        self.ids.push((id, tag.clone()?))?;
        let Whole(payload) = delivery.into_body();
        made.add_handed_out(HandedOut {
            id,
            tag,
            settled,
            payload,
        })?;
        Ok(Answer::Taken)
    }

    // Each delivery that the disposition names, by the tag that the session keeps for its id.
    fn take_disposition(&mut self, disposition: &Disposition) -> Result<Answer, StepError> {
        for (id, tag) in &self.ids {
            if !names(disposition, *id) {
                continue;
            }
            let state = copy_of_state(&disposition.state)?;
            self.inbox
                .on_incoming_disposition(disposition.settled, state, tag)?;
        }
        Ok(Answer::Taken)
    }

    fn take_detach(&mut self, made: &mut Made, detach: Detach) -> Result<Answer, StepError> {
        if peer_is_answering(*self.inbox.local_state()) {
            return replied(self.alloc, self.inbox.on_detach_reply(detach));
        }
        match self.inbox.on_incoming_detach(&detach, true) {
            Ok(reply) => {
                made.add_detach(reply)?;
                recorded(self.alloc, self.inbox.apply_remote_detach_outcome(detach))
            }
            Err(error) => refused(self.alloc, error),
        }
    }

    // ---- calls of the user

    /// The user makes a call.
    pub fn call(&mut self, made: &mut Made, call: Call) -> Result<Answer, StepError> {
        match call {
            Call::Attach(handle) => self.attach(made, handle),
            Call::Flow {
                credit,
                drain,
                echo,
            } => self.grant(made, credit, drain, echo),
            Call::DisposeReceived {
                settled,
                state,
                ids,
            } => self.dispose(made, settled, state, ids.as_slice()),
            Call::Detach(closed) => add_returned(
                self.alloc,
                made,
                self.inbox.send_detach(closed, None),
            ),
            other => {
                drop(other);
                Err(StepError::OtherRole)
            }
        }
    }

    fn attach(&mut self, made: &mut Made, handle: OutputHandle) -> Result<Answer, StepError> {
        *self.inbox.output_handle_mut() = Some(handle);
        add_returned(self.alloc, made, self.inbox.send_attach(false))
    }

    // A row's credit counts the delivery that is under way; the inbox has counted it as it began.
    fn grant(
        &mut self,
        made: &mut Made,
        credit: u32,
        drain: bool,
        echo: bool,
    ) -> Result<Answer, StepError> {
        let further = credit.saturating_sub(u32::from(self.is_under_way));
        let flow = self
            .inbox
            .send_flow(Some(further), Some(drain), echo, false);
        add_returned(self.alloc, made, flow)
    }

    fn dispose(
        &mut self,
        made: &mut Made,
        settled: bool,
        state: DeliveryState,
        ids: &[DeliveryNumber],
    ) -> Result<Answer, StepError> {
        let Some(tags) = self.tags_of(ids)? else {
            drop(state);
            return refused_with(self.alloc, "no delivery with this id was handed out");
        };
        if let [tag] = tags.as_slice() {
            let disposed = self.inbox.dispose(tag, Some(settled), state, false);
            return add_returned(self.alloc, made, disposed);
        }
        let disposed = self
            .inbox
            .dispose_all(tags.as_slice(), Some(settled), state, false);
        add_all_returned(self.alloc, made, disposed)
    }

    // The tags of the deliveries that were handed out with these ids; none if one of them was not.
    fn tags_of(&self, ids: &[DeliveryNumber]) -> Result<Option<Vec<DeliveryTag>>, StepError> {
        let mut tags = Vec::new(self.alloc);
        for id in ids {
            let Some(tag) = self.tag_of(*id) else {
                drop(tags);
                return Ok(None);
            };
            tags.push(tag.clone()?)?;
        }
        Ok(Some(tags))
    }

    fn tag_of(&self, id: DeliveryNumber) -> Option<&DeliveryTag> {
        for (other, tag) in &self.ids {
            if *other == id {
                return Some(tag);
            }
        }
        None
    }
}
