//! Worked values of flow states.
use crate::assertions::{assert_equal, assert_equal_at};
use crate::samples::fields;
use amqp_link_state::role::{ReceiverMarker, SenderMarker};
use amqp_link_state::state::{LinkFlowState, LinkFlowStateInner};
use amqp_link_types::types::{LinkFlow, OutputHandle, SequenceNo};
use std::process::Abort;

const HANDLE: OutputHandle = OutputHandle(7);

// The handle of a flow; its count, credit and what is available; drain and echo; how many properties.
type Seen = (
    u32,
    (Option<u32>, Option<u32>, Option<u32>),
    (bool, bool),
    usize,
);

fn properties_in(flow: &LinkFlow) -> usize {
    match &flow.properties {
        Some(properties) => properties.len(),
        None => 0,
    }
}

fn seen(flow: &LinkFlow) -> Seen {
    (
        flow.handle.0,
        (flow.delivery_count, flow.link_credit, flow.available),
        (flow.drain, flow.echo),
        properties_in(flow),
    )
}

fn shown(flow: Option<LinkFlow>) -> Option<Seen> {
    let shown = match &flow {
        Some(flow) => Some(seen(flow)),
        None => None,
    };
    drop(flow);
    shown
}

// A sender's flow state at this count, without credit.
fn sender_at(delivery_count: SequenceNo) -> LinkFlowState<SenderMarker> {
    LinkFlowState::sender(LinkFlowStateInner {
        delivery_count,
        ..LinkFlowStateInner::default()
    })
}

// The reply of a sender to a flow of this count and credit.
fn answered(
    state: &mut LinkFlowState<SenderMarker>,
    delivery_count: Option<SequenceNo>,
    link_credit: Option<u32>,
    drain: bool,
) -> Option<Seen> {
    let flow = LinkFlow {
        delivery_count,
        link_credit,
        drain,
        ..LinkFlow::default()
    };
    let reply = state.on_incoming_flow(&flow, HANDLE);
    drop(flow);
    shown(reply)
}

// The tag of the next delivery, if there is credit for it.
fn spent(state: &mut LinkFlowState<SenderMarker>) -> Option<[u8; 4]> {
    state.consume(1).ok()
}

// The credit and the count of a sender.
fn left(state: &LinkFlowState<SenderMarker>) -> (u32, SequenceNo) {
    (state.link_credit(), state.delivery_count())
}

#[test]
fn credit_is_spent_one_by_one(rt: HostRuntime) {
    let mut state = sender_at(0);
    let at_first = spent(&mut state);
    let silent = answered(&mut state, None, None, false);
    let still = spent(&mut state);
    let granted = answered(&mut state, None, Some(2), false);
    let tags = [spent(&mut state), spent(&mut state), spent(&mut state)];
    let after = left(&state);
    drop(state);
    assert_equal(&rt, &[at_first, still], &[None, None]);
    assert_equal(&rt, &[silent, granted], &[None, None]);
    assert_equal(&rt, &tags, &[Some([0, 0, 0, 0]), Some([0, 0, 0, 1]), None]);
    assert_equal(&rt, &after, &(0, 2));
}

// The own count, the count and the credit of the flow, and the credit that follows.
const GRANTS: &[(SequenceNo, SequenceNo, u32, u32)] = &[
    (4294967295, 4294967295, 10, 10),
    (2, 4294967290, 10, 2),
    (0, 2147483648, 10, 0),
    (5, 3, 4294967295, 4294967293),
    (0, 5, 4294967295, 4294967295),
];

// The reply, the credit and the count of a sender at a count, after it was granted credit.
fn granted(own: SequenceNo, count: SequenceNo, credit: u32) -> (Option<Seen>, (u32, SequenceNo)) {
    let mut state = sender_at(own);
    let reply = answered(&mut state, Some(count), Some(credit), false);
    let left = left(&state);
    drop(state);
    (reply, left)
}

#[test]
fn credit_is_counted_from_the_count_of_the_flow(rt: HostRuntime) {
    for (own, count, credit, wanted) in GRANTS {
        let answer = granted(*own, *count, *credit);
        assert_equal_at(&rt, &answer, &(None, (*wanted, *own)), own);
    }
}

#[test]
fn drain_takes_all_credit_to_the_count(rt: HostRuntime) {
    let mut state = sender_at(4294967294);
    let reply = answered(&mut state, Some(4294967294), Some(3), true);
    let after = left(&state);
    drop(state);
    let wanted = (7, (Some(1), Some(0), Some(0)), (true, false), 0);
    assert_equal(&rt, &reply, &Some(wanted));
    assert_equal(&rt, &after, &(0, 1));
}

// The reply of a receiver to a flow.
fn taken(state: &mut LinkFlowState<ReceiverMarker>, flow: LinkFlow) -> Option<Seen> {
    let reply = state.on_incoming_flow(&flow, HANDLE);
    drop(flow);
    shown(reply)
}

// A flow of a sender that asks for an answer, with a credit that is not its own to state.
fn asking() -> LinkFlow {
    LinkFlow {
        delivery_count: Some(7),
        link_credit: Some(9),
        available: Some(3),
        echo: true,
        ..LinkFlow::default()
    }
}

// A count, a credit, what is available and a drain flag, with one property.
fn draining(rt: &(impl Abort + AllocGlobal)) -> LinkFlowStateInner {
    LinkFlowStateInner {
        initial_delivery_count: 1,
        delivery_count: 5,
        link_credit: 4,
        available: 6,
        drain: true,
        properties: Some(fields(rt, 7)),
    }
}

#[test]
fn receiver_takes_count_and_available(rt: HostRuntime) {
    let mut state = LinkFlowState::receiver(draining(&rt));
    let asked = taken(&mut state, asking());
    let silent = taken(&mut state, LinkFlow::default());
    drop(state);
    let wanted = (7, (Some(7), Some(4), Some(3)), (true, false), 0);
    assert_equal(&rt, &asked, &Some(wanted));
    assert_equal(&rt, &silent, &None);
}

// The flow that an endpoint makes of its state, with its properties.
fn carried(rt: &(impl Abort + AllocGlobal)) -> Option<Seen> {
    let state = draining(rt);
    let flow = state.as_link_flow(HANDLE, true, true);
    drop(state);
    shown(flow.ok())
}

#[test]
fn flows_carry_the_state_of_an_endpoint(rt: HostRuntime) {
    let wanted = (7, (Some(5), Some(4), Some(6)), (true, true), 1);
    assert_equal(&rt, &carried(&rt), &Some(wanted));
}

// The flow that sets the credit and the drain flag.
fn stated(rt: &(impl Abort + AllocGlobal), included: bool) -> Option<Seen> {
    let mut state = LinkFlowState::receiver(draining(rt));
    let flow = state.state_flow(Some(9), Some(false), HANDLE, true, included);
    drop(state);
    shown(flow.ok())
}

#[test]
fn receiver_states_what_it_sets(rt: HostRuntime) {
    let numbers = (Some(5), Some(9), None);
    let with_properties = Some((7, numbers, (false, true), 1));
    assert_equal(&rt, &stated(&rt, true), &with_properties);
    let bare = Some((7, numbers, (false, true), 0));
    assert_equal(&rt, &stated(&rt, false), &bare);
}
