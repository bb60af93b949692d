//! Worked values of a sender's attaches, and of what follows one that has failed.
use crate::assertions::{assert_equal, assert_equal_at};
use crate::calls::{pending_in, withdraw};
use crate::led::{attach_goes, detach_for_reattach, put};
use crate::samples::{coming, count_in, link_of, parts, text};
use crate::sending::{link, send_one};
use amqp_link_endpoint::endpoint::LinkExt;
use amqp_link_sender::SenderLink;
use amqp_link_state::state::LinkState;
use amqp_link_tests_support::calls::{local_state, send_attach, take_attach};
use amqp_link_tests_support::refusals::{Asked, Refusal, asked_by, at_sender};
use amqp_link_types::delivery::Outcomes;
use amqp_link_types::frame::LinkFrame;
use amqp_link_types::types::{
    Attach, LinkStateError, ReceiverSettleMode, SenderAttachError, SenderSettleMode, Source,
    Target, TargetArchetype,
};
use amqp_link_values::length::EncodedLen;
use std::alloc::AllocError;
use std::process::Abort;

// What an attach that is sent shows: its length, its count, how many deliveries it states, and whether these
// are not all.
type Shown = (Option<u64>, Option<u32>, Option<usize>, bool);

fn shown_by(frame: &LinkFrame) -> Option<Shown> {
    match frame {
        LinkFrame::Attach(attach) => Some((
            attach.encoded_len(),
            attach.initial_delivery_count,
            attach.unsettled.as_ref().map(|entries| entries.len()),
            attach.incomplete_unsettled,
        )),
        _ => None,
    }
}

fn shown_of(sent: &Result<(LinkFrame, Outcomes), SenderAttachError>) -> Result<Shown, Refusal> {
    match sent {
        Ok((frame, _)) => shown_by(frame).ok_or(Refusal::Other),
        Err(error) => Err(at_sender(error)),
    }
}

// What the attach of a new link shows that has so many pending deliveries, at this limit.
fn sent_at(rt: &(impl Abort + AllocGlobal), pending: u32, limit: u32) -> Result<Shown, Refusal> {
    let mut link = link_of(rt, parts(rt, limit));
    for count in 0..pending {
        put(rt, &mut link, count);
    }
    let sent = send_attach(&mut link, false);
    let shown = shown_of(&sent);
    drop((sent, link));
    shown
}

// 24 bytes, and four of the frame's header; each entry of a tag of four bytes takes seven, and the
// map itself three.
#[test]
fn attach_names_what_fits(rt: HostRuntime) {
    let rows: &[(u32, u32, Result<Shown, Refusal>)] = &[
        (0, 28, Ok((Some(24), Some(0), None, false))),
        (0, 27, Err(Refusal::AttachTooLarge)),
        (4, 58, Ok((Some(54), Some(0), Some(4), false))),
        (4, 57, Ok((Some(40), Some(0), Some(2), true))),
        (4, 37, Ok((Some(33), Some(0), Some(1), true))),
        (4, 30, Ok((Some(26), Some(0), Some(0), true))),
        (4, 29, Err(Refusal::AttachTooLarge)),
    ];
    for (pending, limit, wanted) in rows {
        let shown = sent_at(&rt, *pending, *limit);
        assert_equal_at(&rt, &shown, wanted, &(pending, limit));
    }
}

// Whether an attach with all deliveries and count 256 fits a frame of this size.
fn fits_at(rt: &(impl Abort + AllocGlobal), limit: u32) -> Result<bool, AllocError> {
    let link = link_of(rt, parts(rt, 512));
    let fits = link.complete_attach_fits(limit, 256);
    drop(link);
    fits
}

// A count of 256 takes five bytes, one of 0 a single one.
#[test]
fn complete_attach_is_measured_with_its_count(rt: HostRuntime) {
    assert_equal(&rt, &fits_at(&rt, 32), &Ok(true));
    assert_equal(&rt, &fits_at(&rt, 31), &Ok(false));
}

// The count of the delivery at this place, if it has ended with `IllegalState`.
fn given_up(outcomes: &Outcomes, place: usize) -> Option<u32> {
    let (tag, outcome) = outcomes.get(place)?;
    match outcome {
        Err(LinkStateError::IllegalState) => count_in(tag),
        _ => None,
    }
}

// How many deliveries have ended, and the first three.
type Ends = (usize, [Option<u32>; 3]);

fn ends_in(sent: &Result<(LinkFrame, Outcomes), SenderAttachError>) -> Option<Ends> {
    let (_, outcomes) = sent.as_ref().ok()?;
    let ends = [
        given_up(outcomes, 0),
        given_up(outcomes, 1),
        given_up(outcomes, 2),
    ];
    Some((outcomes.len(), ends))
}

// What the attach of a link shows that is reattached, and the deliveries that it gives up.
fn reattached(link: &mut SenderLink<Target>) -> (Result<Shown, Refusal>, Option<Ends>) {
    let sent = send_attach(link, true);
    let shown = shown_of(&sent);
    let ends = ends_in(&sent);
    drop(sent);
    (shown, ends)
}

// A link that has sent so many deliveries of one byte, and is detached, with its handle again.
fn detached_after(rt: &(impl Abort + AllocGlobal), pending: u32) -> SenderLink<Target> {
    let mut link = link(rt, 29, 4);
    for _ in 0..pending {
        send_one(rt, &mut link, &[7]);
    }
    detach_for_reattach(rt, &mut link);
    link
}

// A link that is reattached states its present count and no deliveries, and resolves them in the order of its
// map: there the last has moved to the place of one that was withdrawn.
#[test]
fn reattach_gives_pending_deliveries_up(rt: HostRuntime) {
    let mut link = detached_after(&rt, 3);
    let (shown, ends) = reattached(&mut link);
    let left = (local_state(&link), pending_in(&link));
    drop(link);
    assert_equal(&rt, &shown, &Ok((Some(25), Some(3), None, false)));
    assert_equal(&rt, &ends, &Some((3, [Some(0), Some(1), Some(2)])));
    assert_equal(&rt, &left, &(LinkState::AttachSent, 0));
    let mut link = detached_after(&rt, 4);
    drop(withdraw(&rt, &mut link, 1));
    let (_, ends) = reattached(&mut link);
    drop(link);
    assert_equal(&rt, &ends, &Some((3, [Some(0), Some(3), Some(2)])));
}

// Why the receiver's attach is refused, if it is.
fn refused_by(link: &mut SenderLink<Target>, attach: Attach) -> Option<Refusal> {
    let answer = take_attach(link, attach);
    let refusal = match &answer {
        Ok(_) => None,
        Err(error) => Some(at_sender(error)),
    };
    drop(answer);
    refusal
}

// Why the attach is refused, if it is, and then the state, the receiver's mode and the largest message in bytes.
type Left = (Option<Refusal>, LinkState, ReceiverSettleMode, Option<u64>);

fn left_by(mut link: SenderLink<Target>, attach: Attach) -> Left {
    let refused = refused_by(&mut link, attach);
    let left = (
        refused,
        local_state(&link),
        *link.rcv_settle_mode(),
        link.max_message_size(),
    );
    drop(link);
    left
}

// The attach of a receiver in the second mode.
fn second(rt: &(impl Abort + AllocGlobal)) -> Attach {
    let mut attach = coming(rt, false);
    attach.rcv_settle_mode = ReceiverSettleMode::Second;
    attach
}

// The same with this mode of the sender, and a largest message of five bytes.
fn limited(rt: &(impl Abort + AllocGlobal), mode: SenderSettleMode) -> Attach {
    let mut attach = second(rt);
    attach.snd_settle_mode = mode;
    attach.max_message_size = Some(5);
    attach
}

// A link in mode settled, with a largest message of 7 bytes.
fn settling(rt: &(impl Abort + AllocGlobal)) -> SenderLink<Target> {
    let mut parts = parts(rt, 512);
    parts.snd_settle_mode = SenderSettleMode::Settled;
    parts.max_message_size = 7;
    link_of(rt, parts)
}

// A mixed sender goes with a settling one, an unsettled one does not. The target is missed before that.
#[test]
fn incoming_attach_is_taken_as_far_as_it_goes(rt: HostRuntime) {
    let state = LinkState::AttachReceived;
    let mode = ReceiverSettleMode::Second;
    let taken = left_by(settling(&rt), limited(&rt, SenderSettleMode::Mixed));
    assert_equal(&rt, &taken, &(None, state, mode, Some(5)));
    let disagreed = left_by(settling(&rt), limited(&rt, SenderSettleMode::Unsettled));
    let refusal = Some(Refusal::SndSettleModeNotSupported);
    assert_equal(&rt, &disagreed, &(refusal, state, mode, Some(7)));
    let mut attach = limited(&rt, SenderSettleMode::Unsettled);
    attach.target = None;
    let untargeted = left_by(settling(&rt), attach);
    let refusal = Some(Refusal::IncomingTerminusIsNone);
    let wanted = (refusal, state, ReceiverSettleMode::First, Some(7));
    assert_equal(&rt, &untargeted, &wanted);
}

// An attach whose source is dynamic and has an address.
fn with_address(rt: &(impl Abort + AllocGlobal)) -> Attach {
    let mut attach = second(rt);
    attach.source = Some(Source {
        dynamic: true,
        address: Some(text(rt, "q")),
        ..Source::default()
    });
    attach
}

// An attach whose target is dynamic and has no address.
fn without_address(rt: &(impl Abort + AllocGlobal)) -> Attach {
    let mut attach = second(rt);
    let target = Target {
        dynamic: true,
        ..Target::default()
    };
    attach.target = Some(TargetArchetype::Target(target));
    attach
}

// A link that has sent its attach, and verifies both termini or none.
fn verifying(rt: &(impl Abort + AllocGlobal), verifies: bool) -> SenderLink<Target> {
    let mut parts = parts(rt, 512);
    parts.verify_incoming_source = verifies;
    parts.verify_incoming_target = verifies;
    let mut link = link_of(rt, parts);
    attach_goes(rt, &mut link);
    link
}

// A link that refuses the attach has not taken the receiver's mode.
#[test]
fn termini_are_verified_where_asked_for(rt: HostRuntime) {
    let state = LinkState::Attached;
    let verified = left_by(verifying(&rt, true), with_address(&rt));
    let refusal = Some(Refusal::SourceAddress);
    let wanted = (refusal, state, ReceiverSettleMode::First, None);
    assert_equal(&rt, &verified, &wanted);
    let taken = left_by(verifying(&rt, false), with_address(&rt));
    let wanted = (None, state, ReceiverSettleMode::Second, None);
    assert_equal(&rt, &taken, &wanted);
}

// The result of handling an error, and the state then.
fn handled(
    rt: &(impl Abort + AllocGlobal),
    link: &mut SenderLink<Target>,
    error: SenderAttachError,
) -> (Refusal, Asked, LinkState) {
    let (error, action) = link.handle_attach_error(error).expect(rt, "memory");
    let actual = (at_sender(&error), asked_by(&action), local_state(link));
    drop((error, action));
    actual
}

// What is asked for once the target's address was missed.
fn handled_without_address(
    rt: &(impl Abort + AllocGlobal),
    link: &mut SenderLink<Target>,
) -> (Refusal, Asked, LinkState) {
    handled(
        rt,
        link,
        SenderAttachError::TargetAddressIsNoneWhenDynamicIsTrue,
    )
}

// A name in use ends the session. A link that refused the target's address closes with a condition, and only once.
#[test]
fn refused_link_is_closed_once(rt: HostRuntime) {
    let mut link = verifying(&rt, true);
    let refused = refused_by(&mut link, without_address(&rt));
    let in_use = handled(&rt, &mut link, SenderAttachError::DuplicatedLinkName);
    let first = handled_without_address(&rt, &mut link);
    let again = handled_without_address(&rt, &mut link);
    drop(link);
    assert_equal(&rt, &refused, &Some(Refusal::TargetAddress));
    let ends = (
        Refusal::DuplicatedLinkName,
        Asked::EndAsInUse,
        LinkState::Attached,
    );
    assert_equal(&rt, &in_use, &ends);
    let state = LinkState::CloseSent;
    let closes = (Refusal::TargetAddress, Asked::CloseAsInvalid, state);
    assert_equal(&rt, &first, &closes);
    let illegal = (Refusal::IllegalState, Asked::Nothing, state);
    assert_equal(&rt, &again, &illegal);
}
