//! Refusals that no script reaches, each by its name: of a detach with an error, of what is pending before a send, of a
//! transfer at the wrong endpoint or with a wrong mode, of attaches, and what follows from errors that a session reports.
use crate::assertions::{assert_equal, assert_holds_at};
use amqp_link::endpoint::Action;
use amqp_link::errors::{
    ApplyRemoteDetachError, DetachError, LinkRelayError, LinkStateError, ReceiverAttachError,
    ReceiverTransferError, SenderAttachError, SessionStopReason,
};
use amqp_link::inbox::TakeError;
use amqp_link::types::{
    Attach, DataBody, Detach, Error, Fields, Handle, LinkFlow, OutputHandle, ReceiverSettleMode,
    Role, SenderSettleMode, Source, Symbol, Target, TargetArchetype, Text, Transfer,
};
use amqp_link::{
    DeliveryTag, Inbox, LinkAttach, LinkDetach, LinkExt, LinkFrame, LinkParts, Payload,
    ReceiverLink, SenderLink, Sending, Waiting, Whole,
};
use std::process::Abort;

fn text(rt: &(impl Abort + AllocGlobal), words: &str) -> Text {
    Text::from(String::from_str(rt.alloc(), words).expect(rt, "memory"))
}

// The link "l", whose endpoint verifies the peer's termini.
fn parts(rt: &(impl Abort + AllocGlobal)) -> LinkParts<Target> {
    let (source, target) = (Source::default(), Target::default());
    let mut parts = LinkParts::new(text(rt, "l"), Some(source), Some(target), 512);
    parts.verify_incoming_source = true;
    parts.verify_incoming_target = true;
    parts
}

fn attach_of(rt: &(impl Abort + AllocGlobal), role: Role) -> Attach {
    Attach {
        name: text(rt, "l"),
        handle: Handle(0),
        role,
        snd_settle_mode: SenderSettleMode::Mixed,
        rcv_settle_mode: ReceiverSettleMode::First,
        source: Some(Source::default()),
        target: Some(TargetArchetype::from(Target::default())),
        unsettled: None,
        incomplete_unsettled: false,
        initial_delivery_count: Some(0),
        max_message_size: None,
        offered_capabilities: None,
        desired_capabilities: None,
        properties: None,
    }
}

fn asking_sender(rt: &(impl Abort + AllocGlobal)) -> SenderLink<Target> {
    let mut link = SenderLink::new(rt.alloc(), parts(rt)).with_output_handle(OutputHandle(0));
    drop(link.send_attach(false));
    link
}

fn asking_receiver(rt: &(impl Abort + AllocGlobal)) -> ReceiverLink<Target> {
    let mut link = ReceiverLink::new(rt.alloc(), parts(rt)).with_output_handle(OutputHandle(0));
    drop(link.send_attach(false));
    link
}

fn attached_sender(rt: &(impl Abort + AllocGlobal)) -> SenderLink<Target> {
    let mut link = asking_sender(rt);
    drop(link.on_incoming_attach(attach_of(rt, Role::Receiver)));
    link
}

// A receiver with one credit.
fn attached_receiver(rt: &(impl Abort + AllocGlobal)) -> ReceiverLink<Target> {
    let mut link = asking_receiver(rt);
    drop(link.on_incoming_attach(attach_of(rt, Role::Sender)));
    drop(link.send_flow(Some(1), None, false, false));
    link
}

fn error(rt: &(impl Abort + AllocGlobal)) -> Error {
    let condition = String::from_str(rt.alloc(), "x:y").expect(rt, "memory");
    Error {
        condition: Symbol::from(condition),
        description: None,
        info: None,
    }
}

// The peer's detach, with an error.
fn detach(rt: &(impl Abort + AllocGlobal), closed: bool) -> Detach {
    Detach {
        handle: Handle(0),
        closed,
        error: Some(error(rt)),
    }
}

// A sender has detached, and the reply has an error: whether it is named so.
fn is_reply_named(rt: &(impl Abort + AllocGlobal), closed: bool) -> bool {
    let mut link = attached_sender(rt);
    drop(link.send_detach(closed, None));
    let returned = link.on_detach_reply(detach(rt, closed));
    let is_named = match &returned {
        Err(DetachError::RemoteDetachedWithError(_)) => !closed,
        Err(DetachError::RemoteClosedWithError(_)) => closed,
        _ => false,
    };
    drop((returned, link));
    is_named
}

// The peer detaches a receiver with an error.
fn is_detach_named(rt: &(impl Abort + AllocGlobal), closed: bool) -> bool {
    let mut link = attached_receiver(rt);
    let returned = link.apply_remote_detach_outcome(detach(rt, closed));
    let is_named = match &returned {
        Err(ApplyRemoteDetachError::RemoteDetachedWithError(_)) => !closed,
        Err(ApplyRemoteDetachError::RemoteClosedWithError(_)) => closed,
        _ => false,
    };
    drop((returned, link));
    is_named
}

#[test]
fn errors_of_a_detach_have_their_names(rt: HostRuntime) {
    for closed in [false, true] {
        let named = (is_reply_named(&rt, closed), is_detach_named(&rt, closed));
        assert_equal(&rt, &named, &(true, true));
    }
}

// A send while this is pending.
fn send(
    rt: &(impl Abort + AllocGlobal),
    link: &mut SenderLink<Target>,
    waiting: Waiting,
) -> Result<Sending, LinkStateError> {
    let payload = Payload::copy_from_slice(rt.alloc(), &[7]).expect(rt, "memory");
    let sending = link.send_payload(waiting, &payload, 0, None, None, false);
    drop(payload);
    sending
}

// The name of the refusal, as a number: none if it is another one.
fn number_of(refused: &Result<Sending, LinkStateError>) -> Option<u8> {
    match refused {
        Err(LinkStateError::RemoteDetached) => Some(0),
        Err(LinkStateError::RemoteDetachedWithError(_)) => Some(1),
        Err(LinkStateError::RemoteClosedWithError(_)) => Some(2),
        Err(LinkStateError::ExpectImmediateDetach) => Some(3),
        Err(LinkStateError::SessionStopped(_)) => Some(4),
        _ => None,
    }
}

fn refused_by(rt: &(impl Abort + AllocGlobal), waiting: Waiting) -> Option<u8> {
    let mut link = attached_sender(rt);
    let refused = send(rt, &mut link, waiting);
    let number = number_of(&refused);
    drop((refused, link));
    number
}

#[test]
fn what_is_pending_before_a_send_has_its_name(rt: HostRuntime) {
    let mut plain = detach(&rt, false);
    plain.error = None;
    let plain = Waiting::Frame(LinkFrame::Detach(plain));
    assert_equal(&rt, &refused_by(&rt, plain), &Some(0));
    for (closed, number) in [(false, 1), (true, 2)] {
        let waiting = Waiting::Frame(LinkFrame::Detach(detach(&rt, closed)));
        assert_equal(&rt, &refused_by(&rt, waiting), &Some(number));
    }
    let flow = Waiting::Frame(LinkFrame::Flow(LinkFlow::default()));
    assert_equal(&rt, &refused_by(&rt, flow), &Some(3));
    assert_equal(&rt, &refused_by(&rt, Waiting::Stopped(None)), &Some(3));
    let ended = Waiting::Stopped(Some(SessionStopReason::Ended));
    assert_equal(&rt, &refused_by(&rt, ended), &Some(4));
}

// A transfer of one byte arrives at a sender.
fn is_refused_at_sender(rt: &(impl Abort + AllocGlobal)) -> bool {
    let link = attached_sender(rt);
    let payload = Payload::copy_from_slice(rt.alloc(), &[7]).expect(rt, "memory");
    let returned = link.on_incoming_transfer(Transfer::default(), payload);
    let is_refused = matches!(&returned, Err(LinkRelayError::TransferFrameToSender));
    drop((returned, link));
    is_refused
}

// A delivery is complete whose sender lets the receiver settle second, on a link of mode first.
fn is_mode_refused(rt: &(impl Abort + AllocGlobal)) -> bool {
    let mut link = attached_receiver(rt);
    let transfer = Transfer {
        delivery_id: Some(3),
        delivery_tag: Some(DeliveryTag::copied(rt.alloc(), &[1]).expect(rt, "memory")),
        rcv_settle_mode: Some(ReceiverSettleMode::Second),
        ..Transfer::default()
    };
    let delivery = link.on_complete_transfer::<Whole>(&transfer, &[], 0, 0);
    let is_refused = matches!(
        &delivery,
        Err(ReceiverTransferError::IllegalRcvSettleModeInTransfer)
    );
    drop((delivery, transfer, link));
    is_refused
}

#[test]
fn transfers_are_refused_by_role_and_mode(rt: HostRuntime) {
    assert_holds_at(
        &rt,
        is_refused_at_sender(&rt),
        &"only a sender sends transfers",
    );
    assert_holds_at(
        &rt,
        is_mode_refused(&rt),
        &"mode second at a link of mode first",
    );
}

fn properties(rt: &(impl Abort + AllocGlobal)) -> Option<Fields> {
    Some(Fields::new(rt.alloc()))
}

// The peer's attach has node properties, though its termini are not dynamic: a sender verifies the source, a receiver
// the target.
fn are_properties_refused(rt: &(impl Abort + AllocGlobal)) -> (bool, bool) {
    let mut link = asking_sender(rt);
    let mut attach = attach_of(rt, Role::Receiver);
    attach.source = Some(Source {
        dynamic_node_properties: properties(rt),
        ..Source::default()
    });
    let refused = link.on_incoming_attach(attach);
    let at_sender = matches!(
        &refused,
        Err(SenderAttachError::DynamicNodePropertiesIsSomeWhenDynamicIsFalse)
    );
    drop((refused, link));
    (at_sender, are_target_properties_refused(rt))
}

fn are_target_properties_refused(rt: &(impl Abort + AllocGlobal)) -> bool {
    let mut link = asking_receiver(rt);
    let mut attach = attach_of(rt, Role::Sender);
    attach.target = Some(TargetArchetype::from(Target {
        dynamic_node_properties: properties(rt),
        ..Target::default()
    }));
    let refused = link.on_incoming_attach(attach);
    let is_refused = matches!(
        &refused,
        Err(ReceiverAttachError::DynamicNodePropertiesIsSomeWhenDynamicIsFalse)
    );
    drop((refused, link));
    is_refused
}

#[test]
fn properties_of_a_node_that_is_not_dynamic_are_refused(rt: HostRuntime) {
    assert_equal(&rt, &are_properties_refused(&rt), &(true, true));
}

// What follows from an error that the session of a sender reports: nothing is sent.
fn follows_nothing_at_sender(rt: &(impl Abort + AllocGlobal), error: SenderAttachError) -> bool {
    let mut link = asking_sender(rt);
    let handled = link.handle_attach_error(error);
    let is_nothing = matches!(&handled, Ok((_, Action::Nothing)));
    drop((handled, link));
    is_nothing
}

fn follows_nothing_at_receiver(
    rt: &(impl Abort + AllocGlobal),
    error: ReceiverAttachError,
) -> bool {
    let mut link = asking_receiver(rt);
    let handled = link.handle_attach_error(error);
    let is_nothing = matches!(&handled, Ok((_, Action::Nothing)));
    drop((handled, link));
    is_nothing
}

#[test]
fn nothing_is_sent_for_what_a_session_reports(rt: HostRuntime) {
    let stopped = SenderAttachError::SessionStopped(SessionStopReason::Ended);
    assert_holds_at(&rt, follows_nothing_at_sender(&rt, stopped), &"stopped");
    for (error, place) in [
        (SenderAttachError::SessionNotMapped, "no session"),
        (SenderAttachError::NonAttachFrameReceived, "no attach"),
        (SenderAttachError::ExpectImmediateDetach, "no detach"),
    ] {
        assert_holds_at(&rt, follows_nothing_at_sender(&rt, error), &place);
    }
    let closed = SenderAttachError::RemoteClosedWithError(error(&rt));
    assert_holds_at(&rt, follows_nothing_at_sender(&rt, closed), &"closed");
    let stopped = ReceiverAttachError::SessionStopped(SessionStopReason::Ended);
    assert_holds_at(&rt, follows_nothing_at_receiver(&rt, stopped), &"stopped");
    for (error, place) in [
        (ReceiverAttachError::NonAttachFrameReceived, "no attach"),
        (ReceiverAttachError::ExpectImmediateDetach, "no detach"),
    ] {
        assert_holds_at(&rt, follows_nothing_at_receiver(&rt, error), &place);
    }
    let closed = ReceiverAttachError::RemoteClosedWithError(error(&rt));
    assert_holds_at(&rt, follows_nothing_at_receiver(&rt, closed), &"closed");
}

// An inbox has a complete delivery of two bytes under the tag 01.
fn complete(rt: &(impl Abort + AllocGlobal), tag: &DeliveryTag) -> Inbox<Target> {
    let mut inbox = Inbox::new(rt.alloc(), parts(rt)).with_output_handle(OutputHandle(0));
    drop(inbox.send_attach(false));
    drop(inbox.on_incoming_attach(attach_of(rt, Role::Sender)));
    drop(inbox.send_flow(Some(1), None, false, false));
    let transfer = Transfer {
        delivery_id: Some(0),
        delivery_tag: Some(tag.clone().expect(rt, "memory")),
        ..Transfer::default()
    };
    let payload = Payload::copy_from_slice(rt.alloc(), &[1, 2]).expect(rt, "memory");
    drop(inbox.on_incoming_transfer(transfer, payload));
    inbox
}

// Bytes that are no data section are given back, and the delivery counts as taken.
#[test]
fn bytes_that_a_body_refuses_are_given_back(rt: HostRuntime) {
    let tag = DeliveryTag::copied(rt.alloc(), &[1]).expect(&rt, "memory");
    let mut inbox = complete(&rt, &tag);
    let first = inbox.take::<DataBody>(&tag);
    let again = inbox.take::<DataBody>(&tag);
    let are_given_back = matches!(&first, Err(TakeError::Undecoded(_)));
    let is_taken = matches!(&again, Err(TakeError::AlreadyTaken));
    drop((first, again));
    drop((inbox, tag));
    assert_equal(&rt, &(are_given_back, is_taken), &(true, true));
}
