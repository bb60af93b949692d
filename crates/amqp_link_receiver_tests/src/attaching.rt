//! The sender's attach at a receiver, what is verified of it, and what follows one that has failed.
use crate::assertions::{assert_equal, assert_equal_at};
use crate::samples::{attach_of, fields, link_of, link_with, parts, symbol, tag_of};
use crate::table::lead_to;
use amqp_link_endpoint::endpoint::LinkExt;
use amqp_link_receiver::{ReceiverAttachExchange, ReceiverLink, get_max_message_size};
use amqp_link_state::state::{LinkFlowStateInner, LinkState};
use amqp_link_tests_support::calls::{local_state, take_attach};
use amqp_link_tests_support::refusals::{Asked, Refusal, asked_by, at_receiver};
use amqp_link_types::types::{
    Attach, DeliveryState, FilterSet, Handle, InputHandle, ReceiverAttachError, SenderSettleMode,
    Source, Symbol, Target, UnsettledMap, Value,
};
use amqp_link_verification::{FilterError, verify_filter};
use std::process::Abort;

#[test]
fn smaller_message_limit_holds(rt: HostRuntime) {
    for (own, theirs, wanted) in &[
        (0u64, Some(5u64), 5u64),
        (7, None, 7),
        (7, Some(5), 5),
        (5, Some(7), 5),
        (7, Some(0), 7),
        (0, None, 0),
    ] {
        let limit = get_max_message_size(*own, *theirs);
        assert_equal_at(&rt, &limit, wanted, &(own, theirs));
    }
}

type Taken = Result<ReceiverAttachExchange, Refusal>;

// What follows an attach that arrived, or why it was refused.
fn taken_by(answer: Result<ReceiverAttachExchange, ReceiverAttachError>) -> Taken {
    match answer {
        Ok(exchange) => Ok(exchange),
        Err(error) => {
            let refusal = at_receiver(&error);
            drop(error);
            Err(refusal)
        }
    }
}

// The link "l" with this property, that is not attached.
fn link_with_property(rt: &(impl Abort + AllocGlobal), name: &str) -> ReceiverLink<Target> {
    let flow_state = LinkFlowStateInner {
        properties: Some(fields(rt, &[name])),
        ..LinkFlowStateInner::default()
    };
    link_with(rt, flow_state)
}

fn has_properties(
    rt: &(impl Abort + AllocGlobal),
    link: &ReceiverLink<Target>,
    names: &[&str],
) -> bool {
    let wanted = Some(fields(rt, names));
    let has_properties = *link.properties() == wanted;
    drop(wanted);
    has_properties
}

// A property of the sender's attach stands beside the link's own.
#[test]
fn incoming_properties_are_taken(rt: HostRuntime) {
    let mut link = link_with_property(&rt, "j");
    let mut attach = attach_of(&rt, SenderSettleMode::Mixed);
    attach.properties = Some(fields(&rt, &["k"]));
    let answer = taken_by(take_attach(&mut link, attach));
    let is_taken = has_properties(&rt, &link, &["j", "k"]);
    drop(link);
    let wanted = (Ok(ReceiverAttachExchange::Complete), true);
    assert_equal(&rt, &(answer, is_taken), &wanted);
}

// A source with a filter of this name.
fn source_of(rt: &(impl Abort + AllocGlobal), filter: &str) -> Source {
    let mut source = Source::default();
    source.filter = Some(fields(rt, &[filter]));
    source
}

// The link "l" that asks for the filter "f", and verifies the source of the attach.
fn asking(rt: &(impl Abort + AllocGlobal)) -> ReceiverLink<Target> {
    let mut parts = parts(rt);
    parts.source = Some(source_of(rt, "f"));
    parts.verify_incoming_source = true;
    link_of(rt, parts)
}

// One delivery without a state.
fn one_delivery(rt: &(impl Abort + AllocGlobal)) -> UnsettledMap<Option<DeliveryState>> {
    let mut entries = UnsettledMap::new(rt.alloc());
    drop(entries.put(tag_of(rt, 1), None));
    entries
}

// The attach of a sender that settles, at handle 6, with one unsettled delivery and this count, and with a source
// that has a filter of this name, or no source.
fn settling(rt: &(impl Abort + AllocGlobal), count: Option<u32>, filter: Option<&str>) -> Attach {
    let mut attach = attach_of(rt, SenderSettleMode::Settled);
    attach.handle = Handle(6);
    attach.unsettled = Some(one_delivery(rt));
    attach.initial_delivery_count = count;
    attach.source = match filter {
        Some(filter) => Some(source_of(rt, filter)),
        None => None,
    };
    attach
}

// The answer to an attach, and the sender's mode, the count, the state and the input handle of the link then.
type Left = (Taken, SenderSettleMode, u32, LinkState, Option<InputHandle>);

fn left_by(rt: &(impl Abort + AllocGlobal), count: Option<u32>, filter: Option<&str>) -> Left {
    let mut link = asking(rt);
    let answer = taken_by(take_attach(&mut link, settling(rt, count, filter)));
    let left = (
        answer,
        link.snd_settle_mode(),
        link.flow_state().delivery_count(),
        local_state(&link),
        link.input_handle(),
    );
    drop(link);
    left
}

// An attach that is refused for its source moves the link; one that is refused for its count also sets the sender's
// mode.
#[test]
fn incoming_attach_is_taken_as_far_as_it_goes(rt: HostRuntime) {
    let state = LinkState::AttachReceived;
    let handle = Some(InputHandle(6));
    for (count, filter, answer, mode, left) in &[
        (
            Some(5),
            Some("f"),
            Ok(ReceiverAttachExchange::Resume),
            SenderSettleMode::Settled,
            5,
        ),
        (
            None,
            Some("f"),
            Err(Refusal::InitialDeliveryCountIsNone),
            SenderSettleMode::Settled,
            0,
        ),
        (
            Some(5),
            Some("g"),
            Err(Refusal::MissingFilters),
            SenderSettleMode::Mixed,
            0,
        ),
        (
            None,
            None,
            Err(Refusal::IncomingTerminusIsNone),
            SenderSettleMode::Mixed,
            0,
        ),
    ] {
        let actual = left_by(&rt, *count, *filter);
        let wanted = (*answer, *mode, *left, state, handle);
        assert_equal_at(&rt, &actual, &wanted, &(count, filter));
    }
}

fn are_named(missing: &[Symbol], names: &[&str]) -> bool {
    if missing.len() != names.len() {
        return false;
    }
    for (one, other) in missing.iter().zip(names) {
        if one.as_str() != *other {
            return false;
        }
    }
    true
}

// Whether exactly these filters are returned as missing, in this order.
fn are_missing(desired: &Option<FilterSet>, supported: &Option<FilterSet>, names: &[&str]) -> bool {
    let answer = verify_filter(desired, supported);
    let are_missing = match &answer {
        Ok(()) => names.is_empty(),
        Err(FilterError::DesiredFilterNotSupported(missing)) => {
            are_named(missing.as_slice(), names)
        }
        Err(FilterError::OutOfMemory) => false,
    };
    drop(answer);
    are_missing
}

// Filters of these names, and one with a null.
fn filters_and_null(
    rt: &(impl Abort + AllocGlobal),
    names: &[&str],
    null: &str,
) -> Option<FilterSet> {
    let mut filters = fields(rt, names);
    drop(filters.insert(symbol(rt, null), Value::Null));
    Some(filters)
}

// The names that are absent or null are returned in the order in which they were asked for.
#[test]
fn missing_filters_are_named_in_order(rt: HostRuntime) {
    let desired = Some(fields(&rt, &["d", "b", "c", "a"]));
    let supported = filters_and_null(&rt, &["a", "b"], "d");
    let actual = [
        are_missing(&desired, &supported, &["d", "c"]),
        are_missing(&desired, &None, &["d", "b", "c", "a"]),
        are_missing(&supported, &desired, &[]),
        are_missing(&None, &None, &[]),
    ];
    drop((desired, supported));
    assert_equal(&rt, &actual, &[true, true, true, true]);
}

// What is returned for an error, and what is to be done.
fn handled_by(
    rt: &impl Abort,
    link: &mut ReceiverLink<Target>,
    error: ReceiverAttachError,
) -> (Refusal, Asked) {
    let (error, action) = link.handle_attach_error(error).expect(rt, "memory");
    let handled = (at_receiver(&error), asked_by(&action));
    drop((error, action));
    handled
}

// The same of a link that is attached, and its state then.
fn handled(
    rt: &(impl Abort + AllocGlobal),
    error: ReceiverAttachError,
) -> ((Refusal, Asked), LinkState) {
    let mut link = link_of(rt, parts(rt));
    lead_to(rt, &mut link, LinkState::Attached);
    let handled = handled_by(rt, &mut link, error);
    let state = local_state(&link);
    drop(link);
    (handled, state)
}

#[test]
fn errors_have_their_actions(rt: HostRuntime) {
    let in_use = (Refusal::DuplicatedLinkName, Asked::EndAsInUse);
    let actual = handled(&rt, ReceiverAttachError::DuplicatedLinkName);
    assert_equal(&rt, &actual, &(in_use, LinkState::Attached));
    let uncounted = (Refusal::InitialDeliveryCountIsNone, Asked::CloseAsInvalid);
    let actual = handled(&rt, ReceiverAttachError::InitialDeliveryCountIsNone);
    assert_equal(&rt, &actual, &(uncounted, LinkState::CloseSent));
}
