//! Flows of a receiver (2.6.7).
ghost use Rattle.std.specs.Prelude.{◌≡◌, None, IfSome, MatchOption};
ghost use Rattle.std.specs.Option.{option_map_or};
ghost use Rattle.amqp_link_c.specs.Calls.{IsReply, OfReceiver, wrong_status};
ghost use Rattle.amqp_link_c.specs.ReceiverCalls.{StatesCredit};
ghost use Rattle.amqp_link_flat.specs.Flat;
ghost use Rattle.amqp_link_flat.specs.Flat.{link_flow};
ghost use Rattle.amqp_link_inbox.specs.Flows.{moved_by};
ghost use Rattle.amqp_link_object.specs.States.{receiver_in};
ghost use Rattle.amqp_link_state.specs.Counts.{receiver_after, receiver_reply};
ghost use Rattle.amqp_link_object.specs.Objects.{value_in};

use crate::sender::flow::{answer, write_flow};
use amqp_link_flat::flow::{Flow, given};
use amqp_link_flat::status::{EMPTY, Status, WRONG_KIND};
use amqp_link_inbox::Inbox;
use amqp_link_object::{Object, State};
use amqp_link_types::types::Target;
use std::alloc::Global;

// The receiver's own flow.
fn send_flow(
    inbox: &mut Inbox<Target>,
    credit: Option<u32>,
    drain: Option<bool>,
    echo: bool,
    flow: &mut Flow,
) -> u32
    ensures sent { result ≡ 0 → StatesCredit credit drain echo flow.new inbox.old inbox.new }
    ensures refused { result ≡ option_map_or (λ handle. 0) inbox.old.link.output_handle 10 }
    ensures left { (result ≡ 0 → ⊥) → (inbox.new ≡ inbox.old) × (flow.new ≡ flow.old) }
{
    write_flow(inbox.send_flow(credit, drain, echo, false), flow)
}

/// Sets the link-credit, which is how many deliveries the sender may begin from now on, and the drain flag, each if it is
/// there, and writes the flow to send to `flow`. A drain is over once the sender's flow has used up the credit; the drain flag
/// stays until it is set to false here.
///
/// `AMQP_ILLEGAL_STATE`, with nothing changed, without output handle.
#[unsafe(no_mangle)]
pub extern "C" fn amqp_receiver_send_flow(
    alloc: Global,
    receiver: &mut Object,
    has_credit: bool,
    credit: u32,
    has_drain: bool,
    drain: bool,
    echo: bool,
    flow: &mut Flow,
) -> Status
    ensures kind { receiver_in (value_in receiver.old) ≡ None → result ≡ wrong_status (value_in receiver.old) }
    ensures sent { result ≡ 0 → OfReceiver receiver.old receiver.new
        (StatesCredit (Flat.given has_credit credit) (Flat.given has_drain drain) echo flow.new) }
    ensures refused { IfSome (receiver_in (value_in receiver.old)) (λ before.
        result ≡ option_map_or (λ handle. 0) before.link.output_handle 10) }
    ensures left { (result ≡ 0 → ⊥) → (value_in receiver.new ≡ value_in receiver.old) × (flow.new ≡ flow.old) }
{
    let credit = given(has_credit, credit);
    let drain = if has_drain { Some(drain) } else { None };
    with_value!(alloc, receiver, Receiver, inbox => send_flow(inbox, credit, drain, echo, flow))
}

/// Takes the sender's flow. If it asks for an echo, the flow to reply with is written to `reply`, and `has_reply` is set.
///
/// `AMQP_UNATTACHED_HANDLE`, with nothing changed, without output handle.
#[unsafe(no_mangle)]
pub extern "C" fn amqp_receiver_on_flow(
    alloc: Global,
    receiver: &mut Object,
    flow: &Flow,
    reply: &mut Flow,
    has_reply: &mut bool,
) -> Status
    ensures kind { receiver_in (value_in receiver.old) ≡ None → result ≡ wrong_status (value_in receiver.old) }
    ensures answered { IfSome (receiver_in (value_in receiver.old)) (λ inbox. MatchOption inbox.link.output_handle
        (result ≡ 35)
        (λ handle. (result ≡ 0) × IsReply
        (receiver_reply (link_flow flow.now) (moved_by (link_flow flow.now) inbox.link.flow_state) handle)
        reply.old reply.new has_reply.new)) }
    ensures after { result ≡ 0 → OfReceiver receiver.old receiver.new (λ before after. after ≡ record before {
      link = record before.link {
        flow_state = receiver_after (link_flow flow.now) (moved_by (link_flow flow.now) before.link.flow_state);
      };
    }) }
    ensures left { (result ≡ 0 → ⊥) → (value_in receiver.new ≡ value_in receiver.old)
        × (reply.new ≡ reply.old) × (has_reply.new ≡ has_reply.old) }
{
    with_value!(alloc, receiver, Receiver, inbox => {
        answer(inbox.on_incoming_flow(flow.to_flow()), reply, has_reply)
    })
}
