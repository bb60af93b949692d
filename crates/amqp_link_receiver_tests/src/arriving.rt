//! What arrives at a receiver, but for attaches and complete deliveries: flows, which it sends as well, transfers,
//! and the entries of deliveries that arrive in parts.
use crate::assertions::{assert_equal, assert_equal_at};
use crate::samples::{byte_of, fields, link_of, link_with, parts, payload_of, tag_of};
use crate::table::{front_arrives, lead_to};
use amqp_link_endpoint::endpoint::LinkExt;
use amqp_link_receiver::ReceiverLink;
use amqp_link_state::state::{LinkFlowStateInner, LinkState};
use amqp_link_tests_support::links::{FlowFields, flow_fields, reply_fields, went};
use amqp_link_types::frame::LinkFrame;
use amqp_link_types::types::{
    DeliveryNumber, DeliveryState, DeliveryTag, FlowError, Handle, LinkFlow, LinkRelayError,
    ReceiverSettleMode, Target, Transfer,
};
use std::process::Abort;

type Reply = Result<Option<FlowFields>, LinkRelayError>;

type Sent = Result<Option<FlowFields>, FlowError>;

// The reply to a flow with count 7, credit 9 and 3 available.
fn flow_arrives(link: &mut ReceiverLink<Target>) -> Reply {
    let flow = LinkFlow {
        delivery_count: Some(7),
        link_credit: Some(9),
        available: Some(3),
        echo: true,
        ..LinkFlow::default()
    };
    reply_fields(link.on_incoming_flow(flow))
}

fn fields_of(sent: &Result<LinkFrame, FlowError>) -> Sent {
    match sent {
        Ok(LinkFrame::Flow(flow)) => Ok(Some(flow_fields(flow))),
        Ok(_) => Ok(None),
        Err(error) => Err(*error),
    }
}

// The flow that is sent, with credit and drain flag as they are.
fn flow_sent(link: &mut ReceiverLink<Target>, echo: bool, has_properties: bool) -> Sent {
    let sent = link.send_flow(None, None, echo, has_properties);
    let fields = fields_of(&sent);
    drop(sent);
    fields
}

// A flow arrives at count 5 and credit 4: the reply, and the flows that are sent then, one asking for an echo, one
// with the properties.
fn flows(rt: &(impl Abort + AllocGlobal)) -> (Reply, [Sent; 2]) {
    let mut link = link_with(
        rt,
        LinkFlowStateInner {
            delivery_count: 5,
            link_credit: 4,
            properties: Some(fields(rt, &["k"])),
            ..LinkFlowStateInner::default()
        },
    );
    let reply = flow_arrives(&mut link);
    let echo = flow_sent(&mut link, true, false);
    let full = flow_sent(&mut link, false, true);
    drop(link);
    (reply, [echo, full])
}

#[test]
fn sender_flow_carries_its_count_and_available(rt: HostRuntime) {
    let plain = FlowFields {
        handle: 7,
        count: Some(7),
        credit: Some(4),
        available: None,
        drain: false,
        echo: false,
        has_properties: false,
    };
    let reply = FlowFields {
        available: Some(3),
        ..plain
    };
    let echo = FlowFields {
        echo: true,
        ..plain
    };
    let full = FlowFields {
        has_properties: true,
        ..plain
    };
    let wanted = (Ok(Some(reply)), [Ok(Some(echo)), Ok(Some(full))]);
    assert_equal(&rt, &flows(&rt), &wanted);
}

// The result of a transfer that arrives: the frame, and the id and the tag of the delivery that it begins.
type Came = Result<(LinkFrame, Option<(DeliveryNumber, DeliveryTag)>), LinkRelayError>;

// The handles of the frame for the link's user, and how many bytes it has; the id and the tag.
type Shown = (Option<(u32, u32, usize)>, Option<(u32, Option<u8>)>);

fn frame_shown(frame: &LinkFrame) -> Option<(u32, u32, usize)> {
    match frame {
        LinkFrame::RemoteTransfer(came) => Some((
            came.input_handle.0,
            came.performative.handle.0,
            came.payload.len(),
        )),
        _ => None,
    }
}

fn name_shown(name: &Option<(DeliveryNumber, DeliveryTag)>) -> Option<(u32, Option<u8>)> {
    match name {
        Some((id, tag)) => Some((*id, byte_of(tag))),
        None => None,
    }
}

fn shown_by(came: &Came) -> Option<Shown> {
    match came {
        Ok((frame, name)) => Some((frame_shown(frame), name_shown(name))),
        Err(_) => None,
    }
}

// An unsettled transfer of two bytes arrives at handle 6, with this id and tag, and more to come or not.
fn transfer_arrives(
    rt: &(impl Abort + AllocGlobal),
    link: &mut ReceiverLink<Target>,
    (id, byte, more): (u32, u8, bool),
) -> Option<Shown> {
    let transfer = Transfer {
        handle: Handle(6),
        delivery_id: Some(id),
        delivery_tag: Some(tag_of(rt, byte)),
        more,
        ..Transfer::default()
    };
    let came = link.on_incoming_transfer(transfer, payload_of(rt, &[1, 2]));
    let shown = shown_by(&came);
    drop(came);
    shown
}

// The link "l" of mode second, that is not attached.
fn second(rt: &(impl Abort + AllocGlobal)) -> ReceiverLink<Target> {
    let mut parts = parts(rt);
    parts.rcv_settle_mode = ReceiverSettleMode::Second;
    link_of(rt, parts)
}

// Transfers by id, tag and `more`, and what the session gets: the first begins a delivery, and so do the two after
// the last of another.
const IN_MODE_SECOND: &[((u32, u8, bool), Option<(u32, Option<u8>)>)] = &[
    ((3, 1, true), Some((3, Some(1)))),
    ((3, 1, true), None),
    ((3, 1, false), None),
    ((4, 2, false), Some((4, Some(2)))),
    ((5, 3, true), Some((5, Some(3)))),
];

// The session gets the id and the tag of each transfer that begins a delivery; the first after an attach begins one.
#[test]
fn session_gets_transfers_that_begin_deliveries_in_mode_second(rt: HostRuntime) {
    let mut link = second(&rt);
    for (transfer, name) in IN_MODE_SECOND {
        let shown = transfer_arrives(&rt, &mut link, *transfer);
        assert_equal_at(&rt, &shown, &Some((Some((6, 6, 2)), *name)), transfer);
    }
    lead_to(&rt, &mut link, LinkState::AttachReceived);
    let shown = transfer_arrives(&rt, &mut link, (6, 4, false));
    drop(link);
    assert_equal(&rt, &shown, &Some((Some((6, 6, 2)), Some((6, Some(4))))));
}

// What the session gets of a transfer with this id and tag, before the link notes that more of it is to come.
fn noted(
    rt: &(impl Abort + AllocGlobal),
    link: &mut ReceiverLink<Target>,
    (id, byte): (u32, u8),
) -> Option<(u32, Option<u8>)> {
    let transfer = Transfer {
        delivery_id: Some(id),
        delivery_tag: Some(tag_of(rt, byte)),
        ..Transfer::default()
    };
    let name = link.copy_session_record(&transfer).expect(rt, "memory");
    let shown = name_shown(&name);
    link.note_transfer(true);
    drop((transfer, name));
    shown
}

// A caller that keeps the transfer gets the same of it.
#[test]
fn transfers_are_noted_apart(rt: HostRuntime) {
    let mut link = second(&rt);
    let first = noted(&rt, &mut link, (3, 1));
    let begins = link.begins_delivery();
    let next = noted(&rt, &mut link, (3, 1));
    drop(link);
    assert_equal(&rt, &first, &Some((3, Some(1))));
    assert_equal(&rt, &begins, &false);
    assert_equal(&rt, &next, &None);
}

// A link at count 5 and credit 4 whose sender has begun three deliveries, of which none is complete: the flow that is
// sent.
#[test]
fn credit_is_what_is_left_up_to_the_limit(rt: HostRuntime) {
    let mut link = link_with(
        &rt,
        LinkFlowStateInner {
            delivery_count: 5,
            link_credit: 4,
            ..LinkFlowStateInner::default()
        },
    );
    link.move_delivery_count(8);
    let sent = flow_sent(&mut link, false, false);
    drop(link);
    let wanted = FlowFields {
        handle: 7,
        count: Some(8),
        credit: Some(1),
        available: None,
        drain: false,
        echo: false,
        has_properties: false,
    };
    assert_equal(&rt, &sent, &Ok(Some(wanted)));
}

// The entry of a delivery, if it has one: its position, if its state is received.
pub(crate) type Kept = Option<Option<(u32, u64)>>;

fn kept_at(link: &ReceiverLink<Target>, tag: &DeliveryTag) -> Kept {
    match link.unsettled().get(tag) {
        Some(
            Some(
                DeliveryState::Received {
                    section_number,
                    section_offset,
                },
            ),
        ) => Some(Some((*section_number, *section_offset))),
        Some(_) => Some(None),
        None => None,
    }
}

// The entry of the delivery with this tag.
pub(crate) fn kept(rt: &(impl Abort + AllocGlobal), link: &ReceiverLink<Target>, byte: u8) -> Kept {
    let tag = tag_of(rt, byte);
    let kept = kept_at(link, &tag);
    drop(tag);
    kept
}

// Delivery 1 arrives up to this position: whether that is kept, and its entry then.
fn after_front(
    rt: &(impl Abort + AllocGlobal),
    link: &mut ReceiverLink<Target>,
    position: (u32, u64),
) -> (bool, Kept) {
    let is_kept = front_arrives(rt, link, 1, position);
    (is_kept, kept(rt, link, 1))
}

// A transfer carries the state received at a position, or accepted: whether that is taken.
fn state_arrives(
    rt: &(impl Abort + AllocGlobal),
    link: &mut ReceiverLink<Target>,
    (byte, settled): (u8, Option<bool>),
    position: Option<(u32, u64)>,
) -> bool {
    let tag = Some(tag_of(rt, byte));
    let state = match position {
        Some((section_number, section_offset)) => DeliveryState::Received {
            section_number,
            section_offset,
        },
        None => DeliveryState::Accepted,
    };
    let is_taken = went(link.on_transfer_state(&tag, settled, state));
    drop(tag);
    is_taken
}

// An aborted transfer of this delivery arrives: whether its entry was there, and the one afterwards.
fn abort_arrives(
    rt: &(impl Abort + AllocGlobal),
    link: &mut ReceiverLink<Target>,
    byte: u8,
) -> (bool, Kept) {
    let tag = tag_of(rt, byte);
    let is_known = link.on_aborted(&tag);
    drop(tag);
    (is_known, kept(rt, link, byte))
}

// Of two deliveries that have begun the aborted one is forgotten, once.
#[test]
fn aborted_delivery_is_forgotten(rt: HostRuntime) {
    let mut link = link_of(&rt, parts(&rt));
    let first = after_front(&rt, &mut link, (0, 5));
    let second = front_arrives(&rt, &mut link, 2, (1, 2));
    let aborted = [
        abort_arrives(&rt, &mut link, 1),
        abort_arrives(&rt, &mut link, 1),
    ];
    let other = kept(&rt, &link, 2);
    drop(link);
    assert_equal(&rt, &(first.0, second), &(true, true));
    assert_equal(&rt, &aborted, &[(true, None), (false, None)]);
    assert_equal(&rt, &other, &Some(Some((1, 2))));
}

// Delivery 2 is accepted, and stays so; delivery 1 is received, and then settled.
#[test]
fn entries_follow_what_arrives(rt: HostRuntime) {
    let mut link = link_of(&rt, parts(&rt));
    let first = after_front(&rt, &mut link, (0, 5));
    let second = after_front(&rt, &mut link, (1, 2));
    let wanted = [(true, Some(Some((0, 5)))), (true, Some(Some((1, 2))))];
    assert_equal(&rt, &[first, second], &wanted);
    for (transfer, position, entry) in &[
        ((2, None), None, Some(None)),
        ((2, None), Some((0, 3)), Some(None)),
        ((1, Some(false)), Some((0, 3)), Some(Some((0, 3)))),
        ((1, Some(true)), None, None),
    ] {
        let is_taken = state_arrives(&rt, &mut link, *transfer, *position);
        let actual = (is_taken, kept(&rt, &link, transfer.0));
        assert_equal_at(&rt, &actual, &(true, *entry), &(transfer, position));
    }
    drop(link);
}
