//! Flows of a sender (2.6.7).
ghost use Rattle.std.specs.Prelude.{◌≡◌, None, Some, false, IfOk, IfSome, MatchOption, OnErr, if◌then◌else◌};
ghost use Rattle.std.specs.Option.{option_map_or};
ghost use Rattle.amqp_link_c.specs.Calls.{IsFlowWritten, IsReply, OfSender, status_by, wrong_status};
ghost use Rattle.amqp_link_c.specs.SenderCalls.{SendsFlow};
ghost use Rattle.amqp_link_flat.specs.Flat;
ghost use Rattle.amqp_link_flat.specs.Flat.{link_flow};
ghost use Rattle.amqp_link_flat.specs.Statuses.{relay_status};
ghost use Rattle.amqp_link_object.specs.States.{sender_in};
ghost use Rattle.amqp_link_state.specs.Counts.{flow_of, given_back, keeping_reply, sender_after, sender_keeping, sender_reply};
ghost use Rattle.amqp_link_object.specs.Objects.{value_in};

use amqp_link_flat::flow::{Flow, given};
use amqp_link_flat::status::{
    EMPTY, ILLEGAL_STATE, OK, OUT_OF_MEMORY, Status, WRONG_KIND, status_of_relay,
};
use amqp_link_ledger::ledger::OutcomeLedger;
use amqp_link_object::{Object, State};
use amqp_link_types::frame::LinkFrame;
use amqp_link_types::types::{FlowError, LinkFlow, LinkRelayError, Target};
use std::alloc::Global;

// Writes the flow to reply with, if there is one.
pub(crate) fn answer(
    answered: Result<Option<LinkFlow>, LinkRelayError>,
    reply: &mut Flow,
    has_reply: &mut bool,
) -> u32
    ensures status { result ≡ status_by relay_status answered }
    ensures reply { IfOk answered (λ flow. IsReply flow reply.old reply.new has_reply.new) }
    ensures left { OnErr answered ((reply.new ≡ reply.old) × (has_reply.new ≡ has_reply.old)) }
    ensures refused { OnErr answered (result ≡ 0 → ⊥) }
{
    match answered {
        Ok(Some(flow)) => {
            *reply = Flow::of(&flow);
            *has_reply = true;
            drop(flow);
            OK
        }
        Ok(None) => {
            *has_reply = false;
            OK
        }
        Err(refused) => status_of_relay(refused),
    }
}

/// Takes the receiver's flow. If there is one to reply with, it is written to `reply`, and `has_reply` is set. A flow
/// that drains gives the credit back at once.
///
/// `AMQP_UNATTACHED_HANDLE`, with nothing changed, without output handle.
#[unsafe(no_mangle)]
pub extern "C" fn amqp_sender_on_flow(
    alloc: Global,
    sender: &mut Object,
    flow: &Flow,
    reply: &mut Flow,
    has_reply: &mut bool,
) -> Status
    ensures kind { sender_in (value_in sender.old) ≡ None → result ≡ wrong_status (value_in sender.old) }
    ensures answered { IfSome (sender_in (value_in sender.old)) (λ ledger. MatchOption ledger.link.output_handle
        (result ≡ 35)
        (λ handle. (result ≡ 0) × IsReply
        (sender_reply (link_flow flow.now) ledger.link.flow_state handle) reply.old reply.new has_reply.new)) }
    ensures after { result ≡ 0 → OfSender sender.old sender.new (λ before after. after ≡ record before {
      link = record before.link { flow_state = sender_after (link_flow flow.now) before.link.flow_state };
    }) }
    ensures left { (result ≡ 0 → ⊥) → (value_in sender.new ≡ value_in sender.old)
        × (reply.new ≡ reply.old) × (has_reply.new ≡ has_reply.old) }
{
    with_value!(alloc, sender, Sender, ledger => {
        answer(ledger.on_incoming_flow(flow.to_flow()), reply, has_reply)
    })
}

/// Takes the receiver's flow, and keeps the credit if the flow drains: send what waits, then call
/// `amqp_sender_give_back_credit`.
///
/// `AMQP_UNATTACHED_HANDLE`, with nothing changed, without output handle.
#[unsafe(no_mangle)]
pub extern "C" fn amqp_sender_on_flow_keeping_credit(
    alloc: Global,
    sender: &mut Object,
    flow: &Flow,
    reply: &mut Flow,
    has_reply: &mut bool,
) -> Status
    ensures kind { sender_in (value_in sender.old) ≡ None → result ≡ wrong_status (value_in sender.old) }
    ensures answered { IfSome (sender_in (value_in sender.old)) (λ ledger. MatchOption ledger.link.output_handle
        (result ≡ 35)
        (λ handle. (result ≡ 0) × IsReply
        (keeping_reply (link_flow flow.now) ledger.link.flow_state handle) reply.old reply.new has_reply.new)) }
    ensures after { result ≡ 0 → OfSender sender.old sender.new (λ before after. after ≡ record before {
      link = record before.link { flow_state = sender_keeping (link_flow flow.now) before.link.flow_state };
    }) }
    ensures left { (result ≡ 0 → ⊥) → (value_in sender.new ≡ value_in sender.old)
        × (reply.new ≡ reply.old) × (has_reply.new ≡ has_reply.old) }
{
    with_value!(alloc, sender, Sender, ledger => {
        answer(ledger.on_incoming_flow_keeping_credit(flow.to_flow()), reply, has_reply)
    })
}

/// Gives the credit back that is left, if the receiver drains: the flow to send is written to `reply`.
///
/// `AMQP_UNATTACHED_HANDLE`, with nothing changed, without output handle.
#[unsafe(no_mangle)]
pub extern "C" fn amqp_sender_give_back_credit(
    alloc: Global,
    sender: &mut Object,
    reply: &mut Flow,
    has_reply: &mut bool,
) -> Status
    ensures kind { sender_in (value_in sender.old) ≡ None → result ≡ wrong_status (value_in sender.old) }
    ensures answered { IfSome (sender_in (value_in sender.old)) (λ ledger. MatchOption ledger.link.output_handle
        (result ≡ 35)
        (λ handle. (result ≡ 0) × IsReply
        (if ledger.link.flow_state.drain
        then Some (flow_of (given_back ledger.link.flow_state) handle false) else None) reply.old reply.new has_reply.new)) }
    ensures after { result ≡ 0 → OfSender sender.old sender.new (λ before after. after ≡ record before {
      link = record before.link {
        flow_state = if before.link.flow_state.drain then given_back before.link.flow_state else before.link.flow_state;
      };
    }) }
    ensures left { (result ≡ 0 → ⊥) → (value_in sender.new ≡ value_in sender.old)
        × (reply.new ≡ reply.old) × (has_reply.new ≡ has_reply.old) }
{
    with_value!(alloc, sender, Sender, ledger => {
        answer(ledger.give_back_credit(), reply, has_reply)
    })
}

// Writes a flow to send.
pub(crate) fn write_flow(sent: Result<LinkFrame, FlowError>, flow: &mut Flow) -> u32
    ensures { IsFlowWritten sent flow.old flow.new result }
{
    match sent {
        Ok(LinkFrame::Flow(made)) => {
            *flow = Flow::of(&made);
            drop(made);
            OK
        }
        Ok(frame) => {
            drop(frame);
            OK
        }
        Err(FlowError::IllegalState) => ILLEGAL_STATE,
        Err(FlowError::OutOfMemory) => OUT_OF_MEMORY,
    }
}

// The sender's own flow.
fn send_flow(
    ledger: &mut OutcomeLedger<Target>,
    available: Option<u32>,
    echo: bool,
    flow: &mut Flow,
) -> u32
    ensures sent { result ≡ 0 → SendsFlow available echo flow.new ledger.old ledger.new }
    ensures refused { result ≡ option_map_or (λ handle. 0) ledger.old.link.output_handle 10 }
    ensures left { (result ≡ 0 → ⊥) → (ledger.new ≡ ledger.old) × (flow.new ≡ flow.old) }
{
    write_flow(ledger.send_flow(available, echo, false), flow)
}

/// Writes the sender's own flow to send to `flow`. `available` is how many deliveries wait; if it is not there, the flow states the
/// number that was given last, 0 at first.
///
/// `AMQP_ILLEGAL_STATE`, with nothing changed, without output handle.
#[unsafe(no_mangle)]
pub extern "C" fn amqp_sender_send_flow(
    alloc: Global,
    sender: &mut Object,
    has_available: bool,
    available: u32,
    echo: bool,
    flow: &mut Flow,
) -> Status
    ensures kind { sender_in (value_in sender.old) ≡ None → result ≡ wrong_status (value_in sender.old) }
    ensures sent { result ≡ 0 → OfSender sender.old sender.new
        (SendsFlow (Flat.given has_available available) echo flow.new) }
    ensures refused { IfSome (sender_in (value_in sender.old)) (λ before.
        result ≡ option_map_or (λ handle. 0) before.link.output_handle 10) }
    ensures left { (result ≡ 0 → ⊥) → (value_in sender.new ≡ value_in sender.old) × (flow.new ≡ flow.old) }
{
    let waiting = given(has_available, available);
    with_value!(alloc, sender, Sender, ledger => send_flow(ledger, waiting, echo, flow))
}
