//! How credit is spent, and flows that are sent and taken (2.6.7).
//!
//! Only the properties of a flow that is sent are allocated.
ghost use Rattle.std.specs.Prelude.{◌≡◌, ◌↔◌, ◌+◌, ◌%◌, ◌^◌, ◌<◌, ◌≤◌, false, true, if◌then◌else◌, None, Some};
ghost use Rattle.std.specs.Prelude.{IfOk, IfErr, IsErr, OnErr, OnOk, is_some};
ghost use Rattle.std.specs.Int.{w32, to_be_bytes};
ghost use Rattle.amqp_link_state.specs.Counts.{sdiff, count_limit, after_consuming, moved_to};
ghost use Rattle.amqp_link_state.specs.Counts;
ghost use Rattle.amqp_link_state.specs.Counts.{flow_of, credit_after, sender_after, sender_reply};
ghost use Rattle.amqp_link_state.specs.Counts.{given_back, keeping_reply, sender_flow, sender_keeping, with_available};
ghost use Rattle.amqp_link_state.specs.Counts.{receiver_after, receiver_reply, with_stated, stated_flow};

use crate::role::{ReceiverMarker, SenderMarker};
use crate::state::{InsufficientCredit, LinkFlowState, LinkFlowStateInner};
use amqp_link_types::types::{Handle, LinkFlow, OutputHandle, ReceiverTransferError, SequenceNo};
use amqp_link_values::copy::copy_of;
use std::alloc::AllocError;

// How far a count is ahead of another; below 0 if it is behind (RFC 1982).
fn difference(count: SequenceNo, own: SequenceNo) -> i32
    ensures { result ≡ sdiff count own }
{
    count.wrapping_sub(own).cast_signed()
}

// A sender's link-credit at its own count, if a receiver at this count grants this much.
fn granted(count: SequenceNo, grant: u32, own: SequenceNo) -> u32
    ensures { result ≡ Counts.granted count grant own }
{
    grant.saturating_add_signed(difference(count, own))
}

impl LinkFlowStateInner {
    /// The flow state as a flow with this handle, with the properties if they are to be included. Allocates
    /// only those.
    pub fn as_link_flow(
        &self,
        output_handle: OutputHandle,
        echo: bool,
        include_properties: bool,
    ) -> Result<LinkFlow, AllocError>
        ensures flow { IfOk result (λ flow. flow ≡ record (flow_of self.now output_handle echo) {
          properties = if include_properties then self.now.properties else None;
        }) }
        ensures memory { OnErr result
            ((include_properties ≡ true) × (is_some self.now.properties ≡ true)) }
    {
        let properties = if include_properties {
            copy_of(&self.properties)?
        } else {
            None
        };
        Ok(LinkFlow {
            properties,
            ..self.bare_flow(output_handle, echo)
        })
    }

    // The flow state as a flow, without properties. Does not allocate.
    fn bare_flow(&self, output_handle: OutputHandle, echo: bool) -> LinkFlow
        ensures { result ≡ flow_of self.now output_handle echo }
    {
        LinkFlow {
            handle: Handle(output_handle.0),
            delivery_count: Some(self.delivery_count),
            link_credit: Some(self.link_credit),
            available: Some(self.available),
            drain: self.drain,
            echo,
            properties: None,
        }
    }

    // Takes `n` from the credit and adds it to the count, which wraps.
    fn spend(&mut self, n: u32)
        requires { n ≤ self.old.link_credit }
        ensures spent { self.new ≡ after_consuming n self.old }
        ensures limit { count_limit self.new ≡ count_limit self.old }
    {
        self.delivery_count = self.delivery_count.wrapping_add(n);
        self.link_credit -= n;
    }
}

impl<R> LinkFlowState<R> {
    /// Takes one from the credit and adds it to the count, which wraps: for a caller that knows that there is
    /// credit. Does not allocate.
    pub fn spend_one(&mut self)
        requires { 0 < self.old.link_credit }
        ensures spent { self.new ≡ after_consuming 1 self.old }
        ensures limit { count_limit self.new ≡ count_limit self.old }
    {
        self.inner.spend(1);
    }
}

impl LinkFlowState<SenderMarker> {
    /// Takes `n` from the credit and adds it to the count, which wraps. Returns the count before as four
    /// bytes, the highest first: the tag of the delivery for which it is spent. Does not allocate.
    ///
    /// Refused, with nothing changed, if there is less credit.
    pub fn consume(&mut self, n: u32) -> Result<[u8; 4], InsufficientCredit>
        ensures tag { IfOk result (λ tag. tag ≡ to_be_bytes w32 self.old.delivery_count) }
        ensures spent { OnOk result (self.new ≡ after_consuming n self.old) }
        ensures limit { OnOk result (count_limit self.new ≡ count_limit self.old) }
        ensures refused { IsErr result ↔ (self.old.link_credit < n) }
        ensures left { OnErr result (self.new ≡ self.old) }
    {
        let state = &mut self.inner;
        if state.link_credit < n {
            return Err(InsufficientCredit);
        }
        let tag = state.delivery_count.to_be_bytes();
        state.spend(n);
        Ok(tag)
    }

    /// Takes the receiver's flow. If it has a link-credit, the sender's becomes the receiver's delivery-count
    /// + its link-credit - the own delivery-count (RFC 1982), held between 0 and 2^32 - 1; a flow without
    /// delivery-count counts from the initial one. The drain flag becomes the flow's; if it is set, all
    /// credit is added to the count, and the credit becomes 0.
    ///
    /// If the flow drains or asks for an echo, returns the flow state afterwards, without properties and
    /// without `echo`. Does not allocate.
    pub fn on_incoming_flow(
        &mut self,
        flow: &LinkFlow,
        output_handle: OutputHandle,
    ) -> Option<LinkFlow>
        ensures after { self.new ≡ sender_after flow.now self.old }
        ensures reply { result ≡ sender_reply flow.now self.old output_handle }

        // Drained or not, the count up to which deliveries may be sent is the granted one.
        ensures limit { count_limit self.new
            ≡ (self.old.delivery_count + credit_after flow.now self.old) % 2 ^ 32 }
    {
        self.take_grant(flow);
        let state = &mut self.inner;
        if flow.drain {
            state.spend(state.link_credit);
        }
        if flow.drain || flow.echo {
            Some(state.bare_flow(output_handle, false))
        } else {
            None
        }
    }

    /// Takes the receiver's flow as `on_incoming_flow` does, but keeps the credit if the flow drains: it is spent on what
    /// there is to send, and `give_back` gives the rest back.
    ///
    /// If the flow asks for an echo, returns the flow state afterwards, without properties and without `echo`. Does not
    /// allocate.
    pub fn keep_incoming_flow(
        &mut self,
        flow: &LinkFlow,
        output_handle: OutputHandle,
    ) -> Option<LinkFlow>
        ensures after { self.new ≡ sender_keeping flow.now self.old }
        ensures reply { result ≡ keeping_reply flow.now self.old output_handle }
    {
        self.take_grant(flow);
        if !flow.echo {
            return None;
        }
        Some(self.inner.bare_flow(output_handle, false))
    }

    // Takes the credit and the drain flag of the receiver's flow.
    fn take_grant(&mut self, flow: &LinkFlow)
        ensures { self.new ≡ sender_keeping flow.now self.old }
    {
        let state = &mut self.inner;
        let count = flow.delivery_count.unwrap_or(state.initial_delivery_count);
        if let Some(credit) = flow.link_credit {
            state.link_credit = granted(count, credit, state.delivery_count);
        }
        state.drain = flow.drain;
    }

    /// Adds all credit to the count, if the receiver drains, and returns the flow state afterwards, without properties.
    /// Otherwise nothing changes, and there is nothing to send. Does not allocate.
    pub fn give_back(&mut self, output_handle: OutputHandle) -> Option<LinkFlow>
        ensures after { self.new ≡ (if self.old.drain then given_back self.old else self.old) }
        ensures flow { result ≡ (if self.old.drain then Some (flow_of self.new output_handle false) else None) }
        ensures limit { count_limit self.new ≡ count_limit self.old }
    {
        let state = &mut self.inner;
        if !state.drain {
            return None;
        }
        let rest = state.link_credit;
        state.spend(rest);
        Some(state.bare_flow(output_handle, false))
    }

    /// Sets how many deliveries wait to be sent, if that is passed, and returns the flow state afterwards as a flow with
    /// this handle, with the properties if they are to be included.
    ///
    /// Allocates only the properties. If it is out of memory, nothing has changed.
    pub fn state_flow(
        &mut self,
        available: Option<u32>,
        output_handle: OutputHandle,
        echo: bool,
        include_properties: bool,
    ) -> Result<LinkFlow, AllocError>
        ensures after { OnOk result (self.new ≡ with_available available self.old) }
        ensures flow { IfOk result (λ flow.
            flow ≡ sender_flow self.new output_handle echo include_properties) }
        ensures memory { OnErr result
            ((include_properties ≡ true) × (is_some self.old.properties ≡ true)) }
        ensures left { OnErr result (self.new ≡ self.old) }
    {
        let state = &mut self.inner;
        let properties = if include_properties {
            copy_of(&state.properties)?
        } else {
            None
        };
        // All allocations are done: from here on nothing can fail.
        state.available = available.unwrap_or(state.available);
        Ok(LinkFlow {
            properties,
            ..state.bare_flow(output_handle, echo)
        })
    }
}

impl LinkFlowState<ReceiverMarker> {
    /// Takes `n` from the credit and adds it to the count, which wraps. Does not allocate.
    ///
    /// Refused with `TransferLimitExceeded`, and nothing changed, if there is less credit.
    pub fn consume(&mut self, n: u32) -> Result<(), ReceiverTransferError>
        ensures spent { OnOk result (self.new ≡ after_consuming n self.old) }
        ensures limit { OnOk result (count_limit self.new ≡ count_limit self.old) }
        ensures refused { IsErr result ↔ (self.old.link_credit < n) }
        ensures error { IfErr result (λ error. error ≡ ReceiverTransferError.TransferLimitExceeded) }
        ensures left { OnErr result (self.new ≡ self.old) }
    {
        let state = &mut self.inner;
        if state.link_credit < n {
            return Err(ReceiverTransferError::TransferLimitExceeded);
        }
        state.spend(n);
        Ok(())
    }

    /// Moves the delivery-count to the sender's, as the receiver has seen it. Up to where the sender may send stays: the
    /// link-credit is what is left of delivery-count + link-credit, and 0 if the sender is past it. Does not allocate.
    pub fn move_delivery_count(&mut self, count: SequenceNo)
        ensures { self.new ≡ moved_to count self.old }
    {
        let state = &mut self.inner;
        state.link_credit = granted(state.delivery_count, state.link_credit, count);
        state.delivery_count = count;
    }

    /// Sets the link-credit and the drain flag, each if one is passed, and returns the flow state afterwards
    /// as a flow with this handle, with the properties if they are to be included. `available` is left out,
    /// since only the sender knows it (2.6.7).
    ///
    /// Allocates only the properties. If it is out of memory, nothing has changed.
    pub fn state_flow(
        &mut self,
        link_credit: Option<u32>,
        drain: Option<bool>,
        output_handle: OutputHandle,
        echo: bool,
        include_properties: bool,
    ) -> Result<LinkFlow, AllocError>
        ensures after { OnOk result (self.new ≡ with_stated link_credit drain self.old) }
        ensures flow { IfOk result (λ flow.
            flow ≡ stated_flow self.new output_handle echo include_properties) }
        ensures memory { OnErr result
            ((include_properties ≡ true) × (is_some self.old.properties ≡ true)) }
        ensures left { OnErr result (self.new ≡ self.old) }
    {
        let state = &mut self.inner;
        let properties = if include_properties {
            copy_of(&state.properties)?
        } else {
            None
        };
        // All allocations are done: from here on nothing can fail.
        state.link_credit = link_credit.unwrap_or(state.link_credit);
        state.drain = drain.unwrap_or(state.drain);
        Ok(LinkFlow {
            available: None,
            properties,
            ..state.bare_flow(output_handle, echo)
        })
    }

    /// Takes the sender's flow. The delivery-count and `available` are updated if the flow has them; the
    /// link-credit and the drain flag are the receiver's own, and stay.
    ///
    /// If the flow asks for an echo, returns the flow state afterwards, without properties and without
    /// `echo`. Does not allocate.
    pub fn on_incoming_flow(
        &mut self,
        flow: &LinkFlow,
        output_handle: OutputHandle,
    ) -> Option<LinkFlow>
        ensures after { self.new ≡ receiver_after flow.now self.old }
        ensures reply { result ≡ receiver_reply flow.now self.old output_handle }
    {
        let state = &mut self.inner;
        state.delivery_count = flow.delivery_count.unwrap_or(state.delivery_count);
        state.available = flow.available.unwrap_or(state.available);
        if flow.echo {
            Some(state.bare_flow(output_handle, false))
        } else {
            None
        }
    }
}
