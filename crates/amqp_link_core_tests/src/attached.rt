//! What an attach sends of the endpoint's own (2.7.3), and what follows once one has arrived: the properties of
//! the link, and how each delivery is resolved, by rows of the table that were worked out by hand (2.6.13).
use crate::assertions::{assert_equal_at, assert_holds_at};
use amqp_link_core::resumption::{
    PlannedResolution, Resolution, ResumingDelivery, plan_resumption, resume_delivery,
};
use amqp_link_endpoint::endpoint::attached::{
    archetype_of, merged_with, name_and_properties_of, termini_of,
};
use amqp_link_endpoint::endpoint::failing::{Remedy, error_to_send};
use amqp_link_state::state::LinkState;
use amqp_link_types::delivery::UnsettledMessage;
use amqp_link_types::types::{
    DeliveryState, DeliveryTag, Fields, Source, Symbol, Target, TargetArchetype, Text, Value,
};
use bytes::Bytes;
use std::process::Abort;

// Numbers under names.
type Pairs = &'static [(&'static str, u8)];

fn put(rt: &(impl Abort + AllocGlobal), fields: &mut Fields, name: &str, number: u8) {
    let name = String::from_str(rt.alloc(), name).expect(rt, "memory");
    let put = fields.insert(Symbol::from(name), Value::Ubyte(number));
    drop(put.expect(rt, "memory"));
}

fn named(rt: &(impl Abort + AllocGlobal), pairs: Option<Pairs>) -> Option<Fields> {
    let pairs = pairs?;
    let mut fields = Fields::new(rt.alloc());
    for pair in pairs {
        put(rt, &mut fields, pair.0, pair.1);
    }
    Some(fields)
}

// The properties of a link once those of the peer have arrived.
fn joined(
    rt: &(impl Abort + AllocGlobal),
    own: Option<Pairs>,
    theirs: Option<Pairs>,
) -> Option<Fields> {
    let own = named(rt, own);
    let changed = merged_with(&own, named(rt, theirs)).expect(rt, "memory");
    changed.or(own)
}

fn is_joined(
    rt: &(impl Abort + AllocGlobal),
    own: Option<Pairs>,
    theirs: Option<Pairs>,
    wanted: Option<Pairs>,
) -> bool {
    let (both, wanted) = (joined(rt, own, theirs), named(rt, wanted));
    let is_wanted = both == wanted;
    drop((both, wanted));
    is_wanted
}

const OWN: Pairs = &[("a", 1), ("b", 2)];

const THEIRS: Pairs = &[("b", 3), ("c", 4)];

const BOTH: Pairs = &[("a", 1), ("b", 3), ("c", 4)];

const NO_PAIRS: Pairs = &[];

#[test]
fn properties_that_arrive_are_put_one_by_one(rt: HostRuntime) {
    let (own, theirs) = (Some(OWN), Some(THEIRS));
    assert_holds_at(&rt, is_joined(&rt, own, theirs, Some(BOTH)), &"both");
    assert_holds_at(&rt, is_joined(&rt, None, theirs, theirs), &"theirs alone");
    assert_holds_at(&rt, is_joined(&rt, own, None, own), &"the own ones alone");
    let empty = Some(NO_PAIRS);
    assert_holds_at(&rt, is_joined(&rt, own, empty, own), &"none that arrive");
}

fn text(rt: &(impl Abort + AllocGlobal), words: &str) -> Text {
    let words = String::from_str(rt.alloc(), words);
    Text::from(words.expect(rt, "memory"))
}

fn source_at(rt: &(impl Abort + AllocGlobal), address: &str) -> Source {
    Source {
        address: Some(text(rt, address)),
        ..Source::default()
    }
}

fn target_at(rt: &(impl Abort + AllocGlobal), address: &str) -> Target {
    Target {
        address: Some(text(rt, address)),
        ..Target::default()
    }
}

fn is_target_sent(sent: &Option<TargetArchetype>, target: &Option<Target>) -> bool {
    match (sent, target) {
        (Some(TargetArchetype::Target(sent)), Some(target)) => sent == target,
        _ => false,
    }
}

// Whether the target alone is sent as it is.
fn is_copied_as_sent(rt: &impl Abort, target: Option<Target>) -> bool {
    let sent = archetype_of(&target).expect(rt, "memory");
    let is_equal = is_target_sent(&sent, &target);
    drop((sent, target));
    is_equal
}

// Whether the termini that are sent are equal to these.
fn are_termini_sent(rt: &impl Abort, source: Option<Source>, target: Option<Target>) -> bool {
    let termini = termini_of(&source, &target).expect(rt, "memory");
    let are_equal = termini.0 == source && is_target_sent(&termini.1, &target);
    drop((termini, source, target));
    are_equal
}

// Whether the name and the properties that are sent are equal to these.
fn is_name_sent(rt: &impl Abort, name: Text, properties: Option<Fields>) -> bool {
    let sent = name_and_properties_of(&name, &properties).expect(rt, "memory");
    let is_equal = sent.0 == name && sent.1 == properties;
    drop((sent, name, properties));
    is_equal
}

#[test]
fn own_terms_are_sent(rt: HostRuntime) {
    let (source, target) = (source_at(&rt, "a"), target_at(&rt, "b"));
    let are_sent = are_termini_sent(&rt, Some(source), Some(target));
    assert_holds_at(&rt, are_sent, &"the termini");
    let is_copied = is_copied_as_sent(&rt, Some(target_at(&rt, "b")));
    assert_holds_at(&rt, is_copied, &"the target alone");
    let is_sent = is_name_sent(&rt, text(&rt, "l"), named(&rt, Some(OWN)));
    assert_holds_at(&rt, is_sent, &"the name and the properties");
}

#[test]
fn name_in_use_ends_the_session(rt: HostRuntime) {
    let error = error_to_send(rt.alloc(), Remedy::EndSession, LinkState::Attached, None);
    let error = error.expect(&rt, "memory").expect(&rt, "an error");
    let is_named = error.condition.as_str() == "amqp:session:handle-in-use";
    drop(error);
    assert_holds_at(&rt, is_named, &"the condition");
}

// What an endpoint reports of a delivery.
#[derive(Clone, Copy, Debug, PartialEq, Eq)]
enum Shown {
    Absent,
    Null,
    Front(u32, u64),
    Accepted,
    Rejected,
    Released,
    Failed(bool),
}

// How the delivery is resolved, with the number of the payload's bytes that are sent.
#[derive(Clone, Copy, Debug, PartialEq, Eq)]
enum Answer {
    Resent(Shown, usize),
    Resumed(Shown, usize, usize),
    Aborted(u32, Option<u8>),
    Restated(Shown, u8, usize),
    Ended(Shown),
    Failed,
}

fn state_of(shown: Shown) -> Option<DeliveryState> {
    match shown {
        Shown::Absent | Shown::Null => None,
        Shown::Front(section_number, section_offset) => Some(DeliveryState::Received {
            section_number,
            section_offset,
        }),
        Shown::Accepted => Some(DeliveryState::Accepted),
        Shown::Rejected => Some(DeliveryState::Rejected { error: None }),
        Shown::Released => Some(DeliveryState::Released),
        Shown::Failed(failed) => Some(DeliveryState::Modified {
            delivery_failed: Some(failed),
            undeliverable_here: None,
            message_annotations: None,
        }),
    }
}

fn remote_of(shown: Shown) -> Option<Option<DeliveryState>> {
    match shown {
        Shown::Absent => None,
        _ => Some(state_of(shown)),
    }
}

fn shown_by(state: &DeliveryState) -> Shown {
    match state {
        DeliveryState::Received {
            section_number,
            section_offset,
        } => Shown::Front(*section_number, *section_offset),
        DeliveryState::Accepted => Shown::Accepted,
        DeliveryState::Rejected { .. } => Shown::Rejected,
        DeliveryState::Released => Shown::Released,
        DeliveryState::Modified {
            delivery_failed,
            ..
        } => Shown::Failed(delivery_failed.unwrap_or(false)),
    }
}

fn known_by(state: &Option<DeliveryState>) -> Shown {
    match state {
        Some(state) => shown_by(state),
        None => Shown::Null,
    }
}

fn first_of(tag: &DeliveryTag) -> u8 {
    tag.as_bytes().first().copied().unwrap_or(0)
}

fn answer_of_resuming(delivery: &ResumingDelivery) -> Answer {
    match delivery {
        ResumingDelivery::Resend(entry) => {
            Answer::Resent(known_by(&entry.state), entry.payload.len())
        }
        ResumingDelivery::Resume { entry, rest } => {
            Answer::Resumed(known_by(&entry.state), entry.payload.len(), rest.len())
        }
        ResumingDelivery::Abort {
            message_format,
            tag: Some(tag),
        } => Answer::Aborted(*message_format, Some(first_of(tag))),
        ResumingDelivery::Abort { message_format, .. } => Answer::Aborted(*message_format, None),
        ResumingDelivery::RestateOutcome {
            tag,
            payload,
            local_state,
            ..
        } => Answer::Restated(shown_by(local_state), first_of(tag), payload.len()),
    }
}

fn answer_of(resolution: &Resolution) -> Answer {
    match resolution {
        Resolution::Outcome(Ok(state)) => Answer::Ended(known_by(state)),
        Resolution::Outcome(Err(_)) => Answer::Failed,
        Resolution::Resuming(delivery) => answer_of_resuming(delivery),
    }
}

pub(crate) const EIGHT: &[u8] = b"\x00\x53\x70\xc0\x00\x53\x77\x41";

// How the delivery with the tag 01, these bytes and this format is resolved.
fn resolution_of(
    rt: &(impl Abort + AllocGlobal),
    payload: &'static [u8],
    format: u32,
    own: Shown,
    remote: Shown,
) -> Resolution {
    let tag = DeliveryTag::from(vec![in rt.alloc(); 1].expect(rt, "memory"));
    let entry = UnsettledMessage::new(Bytes::from_static(payload), state_of(own), format);
    let resolution = resume_delivery(tag, entry, remote_of(remote));
    resolution.ok().expect(rt, "memory")
}

fn answered(resolution: Resolution) -> Answer {
    let answer = answer_of(&resolution);
    drop(resolution);
    answer
}

// What the sender and the receiver report, and how the delivery is resolved.
type Case = (Shown, Shown, Answer);

fn assert_rows(
    rt: &(impl Abort + AllocGlobal),
    payload: &'static [u8],
    format: u32,
    rows: &[Case],
) {
    for (own, remote, want) in rows {
        let answer = answered(resolution_of(rt, payload, format, *own, *remote));
        assert_equal_at(rt, &answer, want, &(*own, *remote));
    }
}

const ABORTED: Answer = Answer::Aborted(5, Some(1));

const WITHOUT_STATE: &[Case] = &[
    (Shown::Null, Shown::Absent, Answer::Resent(Shown::Null, 8)),
    (
        Shown::Null,
        Shown::Front(0, 5),
        Answer::Resumed(Shown::Null, 8, 3),
    ),
    (Shown::Null, Shown::Null, Answer::Resumed(Shown::Null, 8, 8)),
    (Shown::Null, Shown::Rejected, Answer::Ended(Shown::Rejected)),
];

#[test]
fn rows_without_an_own_state(rt: HostRuntime) {
    assert_rows(&rt, EIGHT, 5, WITHOUT_STATE);
}

const NO_BYTES: Shown = Shown::Front(0, 0);

const FRONT: Shown = Shown::Front(1, 2);

const OF_A_FRONT: &[Case] = &[
    (FRONT, Shown::Absent, Answer::Resent(FRONT, 8)),
    (FRONT, FRONT, Answer::Resumed(FRONT, 8, 2)),
    (FRONT, Shown::Front(1, 3), Answer::Resumed(FRONT, 8, 1)),
    (FRONT, Shown::Front(2, 0), Answer::Resumed(FRONT, 8, 8)),
    (FRONT, Shown::Front(1, 1), ABORTED),
    (FRONT, Shown::Front(0, 6), ABORTED),
    (FRONT, Shown::Null, ABORTED),
    (FRONT, Shown::Accepted, Answer::Ended(Shown::Accepted)),
    (NO_BYTES, Shown::Null, Answer::Resumed(NO_BYTES, 8, 8)),
];

#[test]
fn rows_of_an_own_front(rt: HostRuntime) {
    assert_rows(&rt, EIGHT, 5, OF_A_FRONT);
}

const FAILED: Shown = Shown::Failed(true);

const OF_AN_END: &[Case] = &[
    (
        Shown::Accepted,
        Shown::Absent,
        Answer::Ended(Shown::Accepted),
    ),
    (Shown::Accepted, Shown::Null, ABORTED),
    (
        Shown::Released,
        Shown::Released,
        Answer::Ended(Shown::Released),
    ),
    (FAILED, Shown::Failed(false), Answer::Ended(FAILED)),
    (FAILED, Shown::Rejected, Answer::Restated(FAILED, 1, 8)),
];

#[test]
fn rows_of_an_own_end(rt: HostRuntime) {
    assert_rows(&rt, EIGHT, 5, OF_AN_END);
}

const ABORTED_OF_0: Answer = Answer::Aborted(0, Some(1));

const OF_FORMAT_0: &[Case] = &[
    (Shown::Accepted, NO_BYTES, ABORTED_OF_0),
    (Shown::Rejected, NO_BYTES, ABORTED_OF_0),
    (Shown::Released, NO_BYTES, ABORTED_OF_0),
    (FAILED, NO_BYTES, ABORTED_OF_0),
    // A front beyond that of the receiver.
    (Shown::Front(1, 5), FRONT, ABORTED_OF_0),
];

#[test]
fn ended_deliveries_of_format_0_are_aborted(rt: HostRuntime) {
    assert_rows(&rt, EIGHT, 0, OF_FORMAT_0);
}

// Whether these bytes are sent of a payload, which has arrived up to this position.
fn is_rest(
    rt: &(impl Abort + AllocGlobal),
    payload: &'static [u8],
    at: (u32, u64),
    want: &[u8],
) -> bool {
    let remote = Shown::Front(at.0, at.1);
    let resolution = resolution_of(rt, payload, 5, Shown::Null, remote);
    let is_rest = match &resolution {
        Resolution::Resuming(ResumingDelivery::Resume { rest, .. }) => rest.as_slice() == want,
        _ => false,
    };
    drop(resolution);
    is_rest
}

const RESTS: &[((u32, u64), &[u8])] = &[
    ((1, 0), b"\x00\x53\x77\x41"),
    ((0, 5), b"\x53\x77\x41"),
    ((1, 4), b""),
    // No place: past the next section's header, past the end, and no such section.
    ((0, 7), EIGHT),
    ((1, 5), EIGHT),
    ((2, 0), EIGHT),
];

// Two sections, the second with its code in eight bytes.
const FIFTEEN: &'static [u8] = b"\x00\x53\x70\x45\x00\x80\x00\x00\x00\x00\x00\x00\x00\x77\x41";

const LONG_RESTS: &[((u32, u64), &[u8])] = &[
    ((0, 13), b"\x77\x41"),
    ((1, 0), b"\x00\x80\x00\x00\x00\x00\x00\x00\x00\x77\x41"),
    ((1, 11), b""),
    // No place: past the second section's header.
    ((0, 14), FIFTEEN),
];

#[test]
fn rest_has_the_bytes_from_there(rt: HostRuntime) {
    for (at, want) in RESTS {
        assert_holds_at(&rt, is_rest(&rt, EIGHT, *at, want), at);
    }
    for (at, want) in LONG_RESTS {
        assert_holds_at(&rt, is_rest(&rt, FIFTEEN, *at, want), at);
    }
    // A delivery without bytes has an empty rest.
    assert_rows(&rt, b"", 0, &[(FRONT, FRONT, Answer::Resumed(FRONT, 0, 0))]);
}

// Whether the plan of a resumption from the second section has these bytes.
fn is_planned(rt: &impl Abort, want: &[u8]) -> bool {
    let entry = UnsettledMessage::new(Bytes::from_static(EIGHT), None, 5);
    let plan = plan_resumption(&entry, remote_of(Shown::Front(1, 0))).expect(rt, "memory");
    let is_planned = match &plan {
        PlannedResolution::Resume(rest) => rest.as_slice() == want,
        _ => false,
    };
    drop((plan, entry));
    is_planned
}

#[test]
fn plan_has_the_rest(rt: HostRuntime) {
    assert_holds_at(&rt, is_planned(&rt, b"\x00\x53\x77\x41"), &"a section");
}
