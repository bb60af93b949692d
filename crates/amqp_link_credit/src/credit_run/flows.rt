//! Flows between the endpoints of a credit run (2.6.7).
ghost use Rattle.std.specs.Prelude.{◌≡◌, ◌≤◌, ◌<◌, ◌-◌, ◌^◌, ◌++◌, [], int_lt, pos, false, Some};
ghost use Rattle.std.specs.VecDeque.{deque_len, deque_capacity};
ghost use Rattle.amqp_link_state.specs.Counts.{sdiff, with_stated, stated_flow, sender_after, sender_reply};
ghost use Rattle.amqp_link_worlds.specs.Steps.{zero_output};
ghost use Rattle.amqp_link_credit.specs.CreditCalls.{reply_frames};
ghost use Rattle.amqp_link_credit.specs.Endpoints.{IsFlowWithoutEcho, after_flow};

use crate::queue::Queue;
use amqp_link_endpoint::endpoint::LinkExt;
use amqp_link_receiver::receiver_link::ReceiverLink;
use amqp_link_sender::sender_link::SenderLink;
use amqp_link_types::frame::LinkFrame;
use amqp_link_types::types::{LinkFlow, SequenceNo, Target};
use std::collections::VecDeque;

// Whether the receiver's delivery-count + this credit lies before the limit that it stated last, by serial-number
// arithmetic (RFC 1982).
pub(crate) fn is_lowered(stated: SequenceNo, count: SequenceNo, credit: u32) -> bool
    requires { credit ≤ 2 ^ 31 - 1 }
    ensures { result ≡ int_lt (pos credit) (sdiff stated count) }
{
    credit.cast_signed() < stated.wrapping_sub(count).cast_signed()
}

// The receiver states its credit.
pub(crate) fn state_credit(
    receiver: &mut ReceiverLink<Target>,
    credit: u32,
    drain: bool,
    echo: bool,
) -> LinkFlow
    requires { receiver.old.output_handle ≡ Some zero_output }
    ensures flow { result
        ≡ stated_flow (with_stated (Some credit) (Some drain) receiver.old.flow_state) zero_output echo false }
    ensures after { receiver.new ≡ record receiver.old {
      flow_state = with_stated (Some credit) (Some drain) receiver.old.flow_state;
    } }
{
    match receiver.send_flow(Some(credit), Some(drain), echo, false) {
        Ok(LinkFrame::Flow(flow)) => flow,
        _ => unreachable!(),
    }
}

// A flow of the receiver arrives at the sender, which may reply.
pub(crate) fn take_at_sender(sender: &mut SenderLink<Target>, flow: LinkFlow) -> Option<LinkFlow>
    requires { sender.old.output_handle ≡ Some zero_output }
    ensures reply { result ≡ sender_reply flow sender.old.flow_state zero_output }
    ensures after { sender.new ≡ record sender.old { flow_state = sender_after flow sender.old.flow_state } }
{
    match sender.on_incoming_flow(flow) {
        Ok(reply) => reply,
        Err(_) => unreachable!(),
    }
}

// A reply is under way, if there is one. There has to be room.
pub(crate) fn queue_reply(
    forward: &mut Queue,
    mut batch: VecDeque<LinkFrame>,
    reply: Option<LinkFlow>,
)
    requires room { 0 < forward.old.room }
    requires empty { batch.items ≡ [] }
    requires place { deque_len batch < deque_capacity batch }
    ensures { forward.new.frames ≡ forward.old.frames ++ reply_frames reply }
{
    if let Some(flow) = reply {
        batch.push_back_reserved(LinkFrame::Flow(flow));
        forward.push(batch);
    }
}

// A flow of the sender, which does not ask for a reply, arrives at the receiver.
pub(crate) fn take_at_receiver(receiver: &mut ReceiverLink<Target>, frame: LinkFrame)
    requires handle { receiver.old.output_handle ≡ Some zero_output }
    requires silent { IsFlowWithoutEcho frame }
    ensures { receiver.new ≡ record receiver.old { flow_state = after_flow frame receiver.old.flow_state } }
{
    let LinkFrame::Flow(flow) = frame else {
        unreachable!()
    };
    match receiver.on_incoming_flow(flow) {
        Ok(None) => {}
        _ => unreachable!(),
    }
}
