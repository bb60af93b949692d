//! What an endpoint has made and no row has stated yet.
ghost use Rattle.std.specs.Prelude.{◌↔◌, IsNone, IsSome, MatchOption, slice_get};
ghost use Rattle.replay_report.specs.Comparing.{IsSameHandedOut, IsSameSent};

use crate::answer::Difference;
use crate::compare::{
    attach_difference, detach_difference, disposed_difference, first_that_is_not, flow_difference,
    handed_out_difference, sent_difference,
};
use amqp_link_types::frame::LinkFrame;
use amqp_link_types::types::{
    Attach, Boxed, DeliveryState, DeliveryTag, Detach, Disposition, LinkFlow, Payload,
};
use frame_rows::row::{DisposedOne, HandedOut, Sent, StateName};
use std::alloc::{AllocError, Global};
use std::collections::VecDeque;

/// The frames that an endpoint has made, the deliveries that it has handed out, and those that are resolved, as far as no row
/// has stated them. Each kind is in the order in which it was made.
#[derive(Drop)]
pub struct Made {
    alloc: Global,
    attaches: VecDeque<Attach>,
    flows: VecDeque<LinkFlow>,
    detaches: VecDeque<Detach>,
    deliveries: VecDeque<Sent>,
    dispositions: Vec<DisposedOne>,
    handed_out: VecDeque<HandedOut>,
    outcomes: Vec<(DeliveryTag, StateName)>,
}

impl Made {
    ghost use Rattle.replay_report.specs.Left.{IsAllStated};

    /// Nothing.
    pub fn new(alloc: Global) -> Made {
        Made {
            alloc,
            attaches: VecDeque::new(alloc),
            flows: VecDeque::new(alloc),
            detaches: VecDeque::new(alloc),
            deliveries: VecDeque::new(alloc),
            dispositions: Vec::new(alloc),
            handed_out: VecDeque::new(alloc),
            outcomes: Vec::new(alloc),
        }
    }

    /// A word for what is left, if anything is. Flows do not count: some are replies, which a peer may leave out.
    pub fn left_word(&self) -> Option<&'static str>
        ensures { IsNone result ↔ IsAllStated self.now }
    {
        first_that_is_not(&[
            ("attach", self.attaches.is_empty()),
            ("detach", self.detaches.is_empty()),
            ("delivery", self.deliveries.is_empty()),
            ("disposition", self.dispositions.is_empty()),
            ("handed out", self.handed_out.is_empty()),
            ("outcome", self.outcomes.is_empty()),
        ])
    }

    // ---- what is made

    /// Adds a flow.
    pub fn add_flow(&mut self, flow: LinkFlow) -> Result<(), AllocError> {
        Ok(self.flows.push_back(flow)?)
    }

    /// Adds the detach that is to be sent in reply to one that has arrived, if there is one.
    pub fn add_detach(&mut self, reply: Option<Detach>) -> Result<(), AllocError> {
        match reply {
            Some(detach) => Ok(self.detaches.push_back(detach)?),
            None => Ok(()),
        }
    }

    /// Adds a frame. Of transfers see `add_sent`.
    pub fn add_frame(&mut self, frame: LinkFrame) -> Result<(), AllocError> {
        match frame {
            LinkFrame::Attach(attach) => self.attaches.push_back(Boxed::into_inner(attach))?,
            LinkFrame::Flow(flow) => self.flows.push_back(flow)?,
            LinkFrame::Detach(detach) => self.detaches.push_back(detach)?,
            LinkFrame::Disposition(disposition) => self.add_disposition(&disposition)?,
            other => drop(other),
        }
        Ok(())
    }

    /// Adds frames. Of transfers see `add_sent`.
    pub fn add_frames(&mut self, frames: Vec<LinkFrame>) -> Result<(), AllocError> {
        for frame in frames {
            self.add_frame(frame)?;
        }
        Ok(())
    }

    /// Adds the frames of one delivery that is sent.
    pub fn add_sent(&mut self, frames: &[LinkFrame]) -> Result<(), AllocError> {
        let Some(sent) = joined(self.alloc, frames)? else {
            return Ok(());
        };
        Ok(self.deliveries.push_back(sent)?)
    }

    /// Adds a delivery that is handed out.
    pub fn add_handed_out(&mut self, delivery: HandedOut) -> Result<(), AllocError> {
        Ok(self.handed_out.push_back(delivery)?)
    }

    /// Adds the outcome of a delivery that is resolved.
    pub fn add_outcome(&mut self, tag: DeliveryTag, state: StateName) -> Result<(), AllocError> {
        Ok(self.outcomes.push((tag, state))?)
    }

    // Adds each delivery of a disposition by itself. Ids wrap.
    fn add_disposition(&mut self, disposition: &Disposition) -> Result<(), AllocError> {
        let first = disposition.first;
        let further = disposition.last.unwrap_or(first).wrapping_sub(first);
        for at in 0..=further {
            self.dispositions.push(DisposedOne {
                id: first.wrapping_add(at),
                settled: disposition.settled,
                state: copy_of_state(&disposition.state)?,
            })?;
        }
        Ok(())
    }

    // ---- what is stated

    /// Compares the first attach.
    pub fn state_attach(&mut self, stated: &Attach) -> Option<Difference> {
        let Some(made) = self.attaches.pop_front() else {
            return Some(Difference::Nothing);
        };
        let difference = attach_difference(stated, &made);
        drop(made);
        difference
    }

    /// Compares the first flow that agrees; those before it are replies that the peer has left out. If none agrees, the last
    /// one differs.
    pub fn state_flow(&mut self, stated: &LinkFlow) -> Option<Difference> {
        let mut difference = Some(Difference::Nothing);
        for _ in 0..self.flows.len() {
            let Some(made) = self.flows.pop_front() else {
                return difference;
            };
            difference = flow_difference(stated, &made);
            drop(made);
            if difference.is_none() {
                return None;
            }
        }
        difference
    }

    /// Compares the first detach.
    pub fn state_detach(&mut self, stated: &Detach) -> Option<Difference> {
        let Some(made) = self.detaches.pop_front() else {
            return Some(Difference::Nothing);
        };
        let difference = detach_difference(stated, &made);
        drop(made);
        difference
    }

    /// Compares the first delivery that was sent.
    pub fn state_sent(&mut self, stated: &Sent) -> Option<Difference>
        ensures { MatchOption (slice_get self.old.deliveries.items 0) (IsSome result)
            (λ made. IsNone result ↔ IsSameSent stated.now made) }
    {
        let Some(made) = self.deliveries.pop_front() else {
            return Some(Difference::Nothing);
        };
        let difference = sent_difference(stated, &made);
        drop(made);
        difference
    }

    /// Compares the first disposition of this id: one endpoint may state several ids in one frame, the other in several.
    pub fn state_disposed(&mut self, stated: &DisposedOne) -> Option<Difference> {
        let Some(at) = self
            .dispositions
            .iter()
            .position(|made| made.id == stated.id)
        else {
            return Some(Difference::Nothing);
        };
        let made = self.dispositions.remove(at);
        let difference = disposed_difference(stated, &made);
        drop(made);
        difference
    }

    /// Compares the first delivery that was handed out.
    pub fn state_handed_out(&mut self, stated: &HandedOut) -> Option<Difference>
        ensures { MatchOption (slice_get self.old.handed_out.items 0) (IsSome result)
            (λ made. IsNone result ↔ IsSameHandedOut stated.now made) }
    {
        let Some(made) = self.handed_out.pop_front() else {
            return Some(Difference::Nothing);
        };
        let difference = handed_out_difference(stated, &made);
        drop(made);
        difference
    }

    /// Compares the first outcome of this tag.
    pub fn state_outcome(&mut self, stated: &DeliveryTag, state: StateName) -> Option<Difference> {
        let Some(at) = self.outcomes.iter().position(|made| made.0 == *stated) else {
            return Some(Difference::Nothing);
        };
        let (tag, seen) = self.outcomes.remove(at);
        drop(tag);
        if seen == state {
            None
        } else {
            Some(Difference::Field("state"))
        }
    }
}

/// A copy of a state.
pub fn copy_of_state(state: &Option<DeliveryState>) -> Result<Option<DeliveryState>, AllocError> {
    match state {
        Some(state) => Ok(Some(state.clone()?)),
        None => Ok(None),
    }
}

// The delivery that these frames send; none without a first transfer.
fn joined(alloc: Global, frames: &[LinkFrame]) -> Result<Option<Sent>, AllocError> {
    let Some(LinkFrame::FirstTransfer(first)) = frames.first() else {
        return Ok(None);
    };
    let performative = &first.performative;
    let Some(tag) = &performative.delivery_tag else {
        return Ok(None);
    };
    Ok(Some(Sent {
        tag: tag.clone()?,
        settled: performative.settled.unwrap_or(false),
        format: performative.message_format,
        payload: joined_payload(alloc, frames)?,
    }))
}

fn joined_payload(alloc: Global, frames: &[LinkFrame]) -> Result<Payload, AllocError> {
    let mut bytes = Vec::new(alloc);
    for frame in frames {
        if let Some(transfer) = frame.as_transfer() {
            bytes.extend_from_slice(transfer.payload.as_slice())?;
        }
    }
    Ok(Payload::from_vec(bytes)?)
}
