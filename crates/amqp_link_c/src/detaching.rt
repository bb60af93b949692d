//! Detaches of links of either role (2.6.5, 2.6.6).
ghost use Rattle.std.specs.Prelude.{◌≡◌, ◌⊎◌, ◌∷◌, [], None, Some, false, IfSome, IsSome, IsSomeAnd, IsTrue, IsUtf8, MatchOption};
ghost use Rattle.std.specs.Option.{option_map_or};
ghost use Rattle.amqp_link_c.specs.Calls.{IsFramesObject, IsOutcomesObject, OfSender, error_stated, status_by, wrong_status};
ghost use Rattle.amqp_link_c.specs.Detaching.{FailsPending, TakesDetach, arrived_status, replies};
ghost use Rattle.amqp_link_c.specs.Links.{link_state_in, output_handle_in, recorded_status, released_to, sent_status, state_after_call};
ghost use Rattle.amqp_link_endpoint.specs.Detaching;
ghost use Rattle.amqp_link_endpoint.specs.Detaching.{remote_error, reply_error};
ghost use Rattle.amqp_link_endpoint.specs.LinkStates.{Call, next_state};
ghost use Rattle.amqp_link_flat.specs.Flat.{stated_detach, stated_error};
ghost use Rattle.amqp_link_flat.specs.Refusing.{AreTexts, IsTextRefusal};
ghost use Rattle.amqp_link_flat.specs.Statuses.{apply_detach_status, detach_status};
ghost use Rattle.amqp_link_object.specs.Objects.{value_in};
ghost use Rattle.amqp_link_types.specs.declared.frame.LinkFrame.TheVariants as frame;
ghost use Rattle.amqp_link_object.specs.States.{frames_in, outcomes_in, receiver_in, sender_in};

use amqp_link_endpoint::endpoint::detached::detach_frame;
use amqp_link_endpoint::endpoint::{LinkDetach, LinkExt};
use amqp_link_flat::delivery_state::{ErrorTexts, error_of};
use amqp_link_flat::detach::Detach;
use amqp_link_flat::status::{
    EMPTY, OK, OUT_OF_MEMORY, Status, UNATTACHED_HANDLE, WRONG_KIND, status_of_detach,
    status_of_relay, status_of_remote_detach,
};
use amqp_link_inbox::Inbox;
use amqp_link_ledger::ledger::OutcomeLedger;
use amqp_link_object::{Object, Room, State};
use amqp_link_types::frame::LinkFrame;
use amqp_link_types::types::{DetachError, LinkRelayError, Target};
use std::alloc::Global;

// Makes the detach to send.
fn send_detach<L: LinkDetach<DetachError = DetachError>>(
    alloc: Global,
    link: &mut L,
    closed: bool,
    texts: ErrorTexts<'_>,
    frames: &mut Object,
) -> u32
    ensures status { IsTextRefusal result ⊎ (result ≡ option_map_or
        (λ next. option_map_or (λ handle. 0) (L.shown link.old).output_handle (detach_status L.illegal_state))
        (next_state Call.SendDetach closed (L.shown link.old).local_state) (detach_status L.illegal_state)) }
    ensures texts { IsTextRefusal result → link.new ≡ link.old }
    ensures moved { (IsTextRefusal result → ⊥) → MatchOption (next_state Call.SendDetach closed (L.shown link.old).local_state)
        (link.new ≡ link.old)
        (λ next. link.new ≡ L.moved link.old next None) }
    ensures sent { result ≡ 0 → IsSomeAnd (L.shown link.old).output_handle (λ handle. frames_in (value_in frames.new)
        ≡ Detaching.detach_frame handle closed (stated_error texts.entry.has_error texts.entry.has_description
        texts.entry.condition.now texts.entry.description.now) ∷ []) }
    ensures left { (result ≡ 0 → ⊥) → value_in frames.new ≡ value_in frames.old }
    ensures no_text { result ≡ 4 → ¬ (AreTexts (IsTrue texts.entry.has_error)
        texts.entry.has_description texts.entry.condition.now texts.entry.description.now) }
    ensures utf8 { IsTextRefusal result ⊎ AreTexts (IsTrue texts.entry.has_error)
        texts.entry.has_description texts.entry.condition.now texts.entry.description.now }
    ensures condition { result ≡ 3 → IsTrue texts.entry.has_error → IsUtf8 texts.entry.condition.now }
{
    let error = match error_of(alloc, texts) {
        Ok(error) => error,
        Err(refused) => return refused,
    };
    let Some(room) = Room::new(alloc) else {
        drop(error);
        return OUT_OF_MEMORY;
    };
    match link.send_detach(closed, error) {
        Ok(frame) => {
            frames.fill(room, State::Frame(frame));
            OK
        }
        Err(refused) => {
            drop(room);
            status_of_detach(refused)
        }
    }
}

/// Puts the detach to send into `frames`: one that closes the link, or one after which it may be attached again. The
/// condition and the description count if `detach` says that they are there; its handle does not. The output handle is released:
/// the frame has it.
///
/// Refused in this order: `AMQP_NO_TEXT` if a text of the error is no UTF-8, with nothing changed; `AMQP_ILLEGAL_STATE` in all
/// states but `AMQP_STATE_ATTACHED`, with nothing changed, or without output handle, with the state moved.
#[unsafe(no_mangle)]
pub extern "C" fn amqp_link_send_detach(
    alloc: Global,
    link: &mut Object,
    detach: &Detach,
    condition: &[u8],
    description: &[u8],
    frames: &mut Object,
) -> Status
    ensures kind { link_state_in (value_in link.old) ≡ None → result ≡ wrong_status (value_in link.old) }
    ensures status { IsSome (link_state_in (value_in link.old)) → IsTextRefusal result ⊎ (result ≡ sent_status
        (state_after_call Call.SendDetach detach.now.closed (value_in link.old)) (output_handle_in (value_in link.old))) }
    ensures texts { IsTextRefusal result → value_in link.new ≡ value_in link.old }
    ensures moved { (IsTextRefusal result → ⊥) → value_in link.new ≡ released_to
        (state_after_call Call.SendDetach detach.now.closed (value_in link.old)) (value_in link.old) }
    ensures sent { result ≡ 0 → IsSomeAnd (output_handle_in (value_in link.old)) (λ handle. frames_in (value_in frames.new)
        ≡ Detaching.detach_frame handle detach.now.closed (stated_error detach.now.has_error detach.now.has_description
        condition.now description.now) ∷ []) }
    ensures left { (result ≡ 0 → ⊥) → value_in frames.new ≡ value_in frames.old }
    ensures no_text { result ≡ 4 → ¬ (AreTexts (IsTrue detach.now.has_error)
        detach.now.has_description condition.now description.now) }
    ensures utf8 { IsSome (link_state_in (value_in link.old)) → IsTextRefusal result ⊎ AreTexts (IsTrue detach.now.has_error)
        detach.now.has_description condition.now description.now }
    ensures condition { result ≡ 3 → IsTrue detach.now.has_error → IsUtf8 condition.now }
{
    let texts = ErrorTexts {
        has_error: detach.has_error,
        has_description: detach.has_description,
        condition,
        description,
    };
    let closed = detach.closed;
    with_value!(alloc, link, Sender | Receiver, end => send_detach(alloc, end, closed, texts, frames))
}

// Makes a detach that moves no state.
fn detach_only<L: LinkExt>(alloc: Global, link: &L, frames: &mut Object) -> u32
    ensures status { (result ≡ 3) ⊎ (result ≡ option_map_or (λ handle. 0) (L.shown link.now).output_handle 35) }
    ensures sent { result ≡ 0 → IsSomeAnd (L.shown link.now).output_handle (λ handle.
        frames_in (value_in frames.new) ≡ Detaching.detach_frame handle false None ∷ []) }
    ensures left { (result ≡ 0 → ⊥) → value_in frames.new ≡ value_in frames.old }
{
    let Some(handle) = link.output_handle() else {
        return UNATTACHED_HANDLE;
    };
    let Some(room) = Room::new(alloc) else {
        return OUT_OF_MEMORY;
    };
    frames.fill(room, State::Frame(detach_frame(handle, false, None)));
    OK
}

/// Puts the detach to send after an incomplete exchange into `frames`. It moves no state: give the peer's reply to
/// `amqp_link_apply_remote_detach`, and attach again.
///
/// `AMQP_UNATTACHED_HANDLE`, with nothing changed, without output handle.
#[unsafe(no_mangle)]
pub extern "C" fn amqp_link_detach_frame(
    alloc: Global,
    link: &mut Object,
    frames: &mut Object,
) -> Status
    ensures kind { link_state_in (value_in link.old) ≡ None → result ≡ wrong_status (value_in link.old) }
    ensures status { IsSome (link_state_in (value_in link.old)) → (result ≡ 3)
        ⊎ (result ≡ option_map_or (λ handle. 0) (output_handle_in (value_in link.old)) 35) }
    ensures sent { result ≡ 0 → IsSomeAnd (output_handle_in (value_in link.old)) (λ handle.
        frames_in (value_in frames.new) ≡ Detaching.detach_frame handle false None ∷ []) }
    ensures kept { value_in link.new ≡ value_in link.old }
    ensures left { (result ≡ 0 → ⊥) → value_in frames.new ≡ value_in frames.old }
{
    with_value!(alloc, link, Sender | Receiver, end => detach_only(alloc, end, frames))
}

// Takes the reply to a detach.
fn take_reply<L: LinkDetach<DetachError = DetachError>>(
    alloc: Global,
    link: &mut L,
    detach: &Detach,
    condition: &[u8],
    description: &[u8],
) -> u32
    ensures status { IsTextRefusal result ⊎ (result ≡ option_map_or (λ next. status_by detach_status
        (Detaching.recorded L.replied detach.now.closed (error_stated detach.now condition.now description.now)))
        (next_state Call.DetachReply detach.now.closed (L.shown link.old).local_state) (detach_status L.illegal_state)) }
    ensures texts { IsTextRefusal result → link.new ≡ link.old }
    ensures moved { (IsTextRefusal result → ⊥) → MatchOption (next_state Call.DetachReply detach.now.closed (L.shown link.old).local_state)
        (link.new ≡ link.old)
        (λ next. link.new ≡ L.moved link.old next None) }
    ensures no_text { result ≡ 4 → ¬ (AreTexts (IsTrue detach.now.has_error)
        detach.now.has_description condition.now description.now) }
    ensures utf8 { IsTextRefusal result ⊎ AreTexts (IsTrue detach.now.has_error)
        detach.now.has_description condition.now description.now }
    ensures condition { result ≡ 3 → IsTrue detach.now.has_error → IsUtf8 condition.now }
    ensures memory { result ≡ 3 → IsTrue detach.now.has_error }
{
    let detach = match detach.to_detach(alloc, condition, description) {
        Ok(detach) => detach,
        Err(refused) => return refused,
    };
    match link.on_detach_reply(detach) {
        Ok(()) => OK,
        Err(refused) => status_of_detach(refused),
    }
}

/// Takes the peer's reply to a detach that was sent. The state moves, and the output handle is released.
///
/// Refused in this order, with nothing changed: `AMQP_NO_TEXT` if a text of the error is no UTF-8; `AMQP_ILLEGAL_STATE` in all
/// states but `AMQP_STATE_DETACH_SENT` of a detach that does not close, and `AMQP_STATE_CLOSE_SENT` of one that does: give any
/// other reply to `amqp_link_apply_remote_detach`.
///
/// The error that the reply carries is the status, with the state moved and the output handle released:
/// `AMQP_REMOTE_DETACHED_WITH_ERROR` or `AMQP_REMOTE_CLOSED_WITH_ERROR`.
#[unsafe(no_mangle)]
pub extern "C" fn amqp_link_on_detach_reply(
    alloc: Global,
    link: &mut Object,
    detach: &Detach,
    condition: &[u8],
    description: &[u8],
) -> Status
    ensures kind { link_state_in (value_in link.old) ≡ None → result ≡ wrong_status (value_in link.old) }
    ensures status { IsSome (link_state_in (value_in link.old)) → IsTextRefusal result ⊎ (result ≡ recorded_status
        detach_status reply_error (state_after_call Call.DetachReply detach.now.closed (value_in link.old))
        detach.now.closed (error_stated detach.now condition.now description.now)) }
    ensures texts { IsTextRefusal result → value_in link.new ≡ value_in link.old }
    ensures moved { (IsTextRefusal result → ⊥) → value_in link.new ≡ released_to
        (state_after_call Call.DetachReply detach.now.closed (value_in link.old)) (value_in link.old) }
    ensures no_text { result ≡ 4 → ¬ (AreTexts (IsTrue detach.now.has_error)
        detach.now.has_description condition.now description.now) }
    ensures utf8 { IsSome (link_state_in (value_in link.old)) → IsTextRefusal result ⊎ AreTexts (IsTrue detach.now.has_error)
        detach.now.has_description condition.now description.now }
    ensures condition { result ≡ 3 → IsTrue detach.now.has_error → IsUtf8 condition.now }
    ensures memory { result ≡ 3 → IsTrue detach.now.has_error }
{
    with_value!(alloc, link, Sender | Receiver, end => take_reply(alloc, end, detach, condition, description))
}

// Records a detach that the peer initiated.
fn record_detach<L: LinkDetach>(
    alloc: Global,
    link: &mut L,
    detach: &Detach,
    condition: &[u8],
    description: &[u8],
) -> u32
    ensures status { IsTextRefusal result ⊎ (result ≡ recorded_status apply_detach_status remote_error
        (next_state Call.RemoteDetach detach.now.closed (L.shown link.old).local_state)
        detach.now.closed (error_stated detach.now condition.now description.now)) }
    ensures texts { IsTextRefusal result → link.new ≡ link.old }
    ensures moved { (IsTextRefusal result → ⊥) → MatchOption (next_state Call.RemoteDetach detach.now.closed (L.shown link.old).local_state)
        (link.new ≡ link.old)
        (λ next. link.new ≡ L.moved link.old next None) }
    ensures no_text { result ≡ 4 → ¬ (AreTexts (IsTrue detach.now.has_error)
        detach.now.has_description condition.now description.now) }
    ensures utf8 { IsTextRefusal result ⊎ AreTexts (IsTrue detach.now.has_error)
        detach.now.has_description condition.now description.now }
    ensures condition { result ≡ 3 → IsTrue detach.now.has_error → IsUtf8 condition.now }
    ensures memory { result ≡ 3 → IsTrue detach.now.has_error }
{
    let detach = match detach.to_detach(alloc, condition, description) {
        Ok(detach) => detach,
        Err(refused) => return refused,
    };
    match link.apply_remote_detach_outcome(detach) {
        Ok(()) => OK,
        Err(refused) => status_of_remote_detach(refused),
    }
}

/// Records a detach that the peer initiated and that was replied to, or the reply to the detach of
/// `amqp_link_detach_frame`; or a detach that crosses one of this end, which is its reply too. The state moves, and the output
/// handle is released: take what is complete before.
///
/// Refused in this order, with nothing changed: `AMQP_NO_TEXT` if a text of the error is no UTF-8; `AMQP_ILLEGAL_STATE` of a
/// link that is unattached, detached or closed.
///
/// The error that the detach carries is the status, with the state moved and the output handle released:
/// `AMQP_REMOTE_DETACHED_WITH_ERROR` or `AMQP_REMOTE_CLOSED_WITH_ERROR`.
#[unsafe(no_mangle)]
pub extern "C" fn amqp_link_apply_remote_detach(
    alloc: Global,
    link: &mut Object,
    detach: &Detach,
    condition: &[u8],
    description: &[u8],
) -> Status
    ensures kind { link_state_in (value_in link.old) ≡ None → result ≡ wrong_status (value_in link.old) }
    ensures status { IsSome (link_state_in (value_in link.old)) → IsTextRefusal result ⊎ (result ≡ recorded_status
        apply_detach_status remote_error (state_after_call Call.RemoteDetach detach.now.closed (value_in link.old))
        detach.now.closed (error_stated detach.now condition.now description.now)) }
    ensures texts { IsTextRefusal result → value_in link.new ≡ value_in link.old }
    ensures moved { (IsTextRefusal result → ⊥) → value_in link.new ≡ released_to
        (state_after_call Call.RemoteDetach detach.now.closed (value_in link.old)) (value_in link.old) }
    ensures no_text { result ≡ 4 → ¬ (AreTexts (IsTrue detach.now.has_error)
        detach.now.has_description condition.now description.now) }
    ensures utf8 { IsSome (link_state_in (value_in link.old)) → IsTextRefusal result ⊎ AreTexts (IsTrue detach.now.has_error)
        detach.now.has_description condition.now description.now }
    ensures condition { result ≡ 3 → IsTrue detach.now.has_error → IsUtf8 condition.now }
    ensures memory { result ≡ 3 → IsTrue detach.now.has_error }
{
    with_value!(alloc, link, Sender | Receiver, end => record_detach(alloc, end, detach, condition, description))
}

// Takes a detach at a sender.
fn take_at_sender(
    alloc: Global,
    ledger: &mut OutcomeLedger<Target>,
    detach: &Detach,
    condition: &[u8],
    description: &[u8],
    remote_initiated: bool,
    reply: &mut Object,
    outcomes: &mut Object,
) -> u32
    ensures status { IsTextRefusal result ⊎ (result ≡ arrived_status remote_initiated ledger.old.link.output_handle) }
    ensures taken { result ≡ 0 → TakesDetach (stated_detach detach.now condition.now description.now)
        remote_initiated (frames_in (value_in reply.new)) (outcomes_in (value_in outcomes.new)) ledger.old ledger.new }
    ensures made { result ≡ 0 → IsFramesObject reply.new × IsOutcomesObject outcomes.new }
    ensures no_text { result ≡ 4 → ¬ (AreTexts (IsTrue detach.now.has_error)
        detach.now.has_description condition.now description.now) }
    ensures utf8 { IsTextRefusal result ⊎ AreTexts (IsTrue detach.now.has_error)
        detach.now.has_description condition.now description.now }
    ensures condition { result ≡ 3 → IsTrue detach.now.has_error → IsUtf8 condition.now }
    ensures left { (result ≡ 0 → ⊥) →
        (ledger.new ≡ ledger.old) × (value_in reply.new ≡ value_in reply.old)
        × (value_in outcomes.new ≡ value_in outcomes.old) }
{
    let detach = match detach.to_detach(alloc, condition, description) {
        Ok(detach) => detach,
        Err(refused) => return refused,
    };
    let (Some(reply_room), Some(outcomes_room)) = (Room::new(alloc), Room::new(alloc)) else {
        drop(detach);
        return OUT_OF_MEMORY;
    };
    match ledger.on_incoming_detach(&detach, remote_initiated) {
        Ok((answer, ended)) => {
            fill_reply(reply, reply_room, answer, alloc);
            outcomes.fill(outcomes_room, State::Outcomes(ended));
            OK
        }
        Err(refused) => {
            drop((reply_room, outcomes_room));
            status_of_relay(refused)
        }
    }
}

// Puts the detach to reply with into an object: no frame, if there is none.
fn fill_reply(
    reply: &mut Object,
    room: Room,
    answer: Option<amqp_link_types::types::Detach>,
    alloc: Global,
)
    ensures frames { frames_in (value_in reply.new) ≡ option_map_or (λ detach. frame.Detach detach ∷ []) answer [] }
    ensures made { IsFramesObject reply.new }
{
    match answer {
        Some(answer) => reply.fill(room, State::Frame(LinkFrame::Detach(answer))),
        None => reply.fill(room, State::Frames(Vec::new(alloc))),
    }
}

/// Takes a detach that has arrived at a sender. `reply` gets the detach to reply with, which repeats its error, if the peer
/// initiated this one, and `outcomes` the outcome of each pending delivery, if it closes the link. Reply, and then call
/// `amqp_link_apply_remote_detach`, which moves the state.
///
/// Refused in this order, with nothing changed: `AMQP_NO_TEXT` if a text of the error is no UTF-8; `AMQP_UNATTACHED_HANDLE`
/// without output handle, only if the peer initiated the detach.
#[unsafe(no_mangle)]
pub extern "C" fn amqp_sender_on_detach(
    alloc: Global,
    sender: &mut Object,
    detach: &Detach,
    condition: &[u8],
    description: &[u8],
    remote_initiated: bool,
    reply: &mut Object,
    outcomes: &mut Object,
) -> Status
    ensures kind { sender_in (value_in sender.old) ≡ None → result ≡ wrong_status (value_in sender.old) }
    ensures status { IfSome (sender_in (value_in sender.old)) (λ before.
        IsTextRefusal result ⊎ (result ≡ arrived_status remote_initiated before.link.output_handle)) }
    ensures taken { result ≡ 0 → OfSender sender.old sender.new (TakesDetach (stated_detach detach.now condition.now description.now)
        remote_initiated (frames_in (value_in reply.new)) (outcomes_in (value_in outcomes.new))) }
    ensures made { result ≡ 0 → IsFramesObject reply.new × IsOutcomesObject outcomes.new }
    ensures no_text { result ≡ 4 → ¬ (AreTexts (IsTrue detach.now.has_error)
        detach.now.has_description condition.now description.now) }
    ensures utf8 { IsSome (sender_in (value_in sender.old)) → IsTextRefusal result ⊎ AreTexts (IsTrue detach.now.has_error)
        detach.now.has_description condition.now description.now }
    ensures condition { result ≡ 3 → IsTrue detach.now.has_error → IsUtf8 condition.now }
    ensures left { (result ≡ 0 → ⊥) →
        (value_in sender.new ≡ value_in sender.old) × (value_in reply.new ≡ value_in reply.old)
        × (value_in outcomes.new ≡ value_in outcomes.old) }
{
    with_value!(alloc, sender, Sender, ledger => {
        take_at_sender(alloc, ledger, detach, condition, description, remote_initiated, reply, outcomes)
    })
}

// Takes a detach at a receiver.
fn take_at_receiver(
    alloc: Global,
    inbox: &Inbox<Target>,
    detach: &Detach,
    condition: &[u8],
    description: &[u8],
    remote_initiated: bool,
    reply: &mut Object,
) -> u32
    ensures status { IsTextRefusal result ⊎ (result ≡ arrived_status remote_initiated inbox.now.link.output_handle) }
    ensures reply { result ≡ 0 → frames_in (value_in reply.new) ≡ replies remote_initiated inbox.now.link.output_handle
        (stated_detach detach.now condition.now description.now) }
    ensures made { result ≡ 0 → IsFramesObject reply.new }
    ensures no_text { result ≡ 4 → ¬ (AreTexts (IsTrue detach.now.has_error)
        detach.now.has_description condition.now description.now) }
    ensures utf8 { IsTextRefusal result ⊎ AreTexts (IsTrue detach.now.has_error)
        detach.now.has_description condition.now description.now }
    ensures condition { result ≡ 3 → IsTrue detach.now.has_error → IsUtf8 condition.now }
    ensures left { (result ≡ 0 → ⊥) → value_in reply.new ≡ value_in reply.old }
{
    let detach = match detach.to_detach(alloc, condition, description) {
        Ok(detach) => detach,
        Err(refused) => return refused,
    };
    let Some(room) = Room::new(alloc) else {
        drop(detach);
        return OUT_OF_MEMORY;
    };
    match inbox.on_incoming_detach(&detach, remote_initiated) {
        Ok(answer) => {
            fill_reply(reply, room, answer, alloc);
            OK
        }
        Err(LinkRelayError::UnattachedHandle) => {
            drop(room);
            UNATTACHED_HANDLE
        }
        Err(_) => {
            drop(room);
            OUT_OF_MEMORY
        }
    }
}

/// Takes a detach that has arrived at a receiver. `reply` gets the detach to reply with, which repeats its error, if the peer
/// initiated this one. Reply, and then call `amqp_link_apply_remote_detach`, which moves the state. What is kept of deliveries
/// stays.
///
/// Refused in this order, with nothing changed: `AMQP_NO_TEXT` if a text of the error is no UTF-8; `AMQP_UNATTACHED_HANDLE`
/// without output handle, only if the peer initiated the detach.
#[unsafe(no_mangle)]
pub extern "C" fn amqp_receiver_on_detach(
    alloc: Global,
    receiver: &mut Object,
    detach: &Detach,
    condition: &[u8],
    description: &[u8],
    remote_initiated: bool,
    reply: &mut Object,
) -> Status
    ensures kind { receiver_in (value_in receiver.old) ≡ None → result ≡ wrong_status (value_in receiver.old) }
    ensures status { IfSome (receiver_in (value_in receiver.old)) (λ inbox.
        IsTextRefusal result ⊎ (result ≡ arrived_status remote_initiated inbox.link.output_handle)) }
    ensures reply { result ≡ 0 → IfSome (receiver_in (value_in receiver.old)) (λ inbox. frames_in (value_in reply.new)
        ≡ replies remote_initiated inbox.link.output_handle (stated_detach detach.now condition.now description.now)) }
    ensures made { result ≡ 0 → IsFramesObject reply.new }
    ensures no_text { result ≡ 4 → ¬ (AreTexts (IsTrue detach.now.has_error)
        detach.now.has_description condition.now description.now) }
    ensures utf8 { IsSome (receiver_in (value_in receiver.old)) → IsTextRefusal result ⊎ AreTexts (IsTrue detach.now.has_error)
        detach.now.has_description condition.now description.now }
    ensures condition { result ≡ 3 → IsTrue detach.now.has_error → IsUtf8 condition.now }
    ensures kept { value_in receiver.new ≡ value_in receiver.old }
    ensures left { (result ≡ 0 → ⊥) → value_in reply.new ≡ value_in reply.old }
{
    with_value!(alloc, receiver, Receiver, inbox => {
        take_at_receiver(alloc, inbox, detach, condition, description, remote_initiated, reply)
    })
}

// Fails each pending delivery.
fn fail_pending(
    alloc: Global,
    ledger: &mut OutcomeLedger<Target>,
    detach: &Detach,
    condition: &[u8],
    description: &[u8],
    outcomes: &mut Object,
) -> u32
    ensures failed { result ≡ 0 → FailsPending (error_stated detach.now condition.now description.now)
        (outcomes_in (value_in outcomes.new)) ledger.old ledger.new }
    ensures made { result ≡ 0 → IsOutcomesObject outcomes.new }
    ensures no_text { result ≡ 4 → ¬ (AreTexts (IsTrue detach.now.has_error)
        detach.now.has_description condition.now description.now) }
    ensures utf8 { IsTextRefusal result ⊎ AreTexts (IsTrue detach.now.has_error)
        detach.now.has_description condition.now description.now }
    ensures condition { result ≡ 3 → IsTrue detach.now.has_error → IsUtf8 condition.now }
    ensures refused { (result ≡ 0) ⊎ IsTextRefusal result }
    ensures left { (result ≡ 0 → ⊥) → (ledger.new ≡ ledger.old) × (value_in outcomes.new ≡ value_in outcomes.old) }
{
    let detach = match detach.to_detach(alloc, condition, description) {
        Ok(detach) => detach,
        Err(refused) => return refused,
    };
    let Some(room) = Room::new(alloc) else {
        drop(detach);
        return OUT_OF_MEMORY;
    };
    let failed = ledger.fail_pending_unsettled(&detach);
    drop(detach);
    match failed {
        Ok(ended) => {
            outcomes.fill(room, State::Outcomes(ended));
            OK
        }
        Err(_) => {
            drop(room);
            OUT_OF_MEMORY
        }
    }
}

/// Fails each pending delivery of a sender that is closed for good, with the error of this detach: `outcomes` gets them. Call it
/// after the link was closed by this end; a detach of the peer's that closes the link does it by `amqp_sender_on_detach`.
///
/// `AMQP_NO_TEXT`, with nothing changed, if a text of the error is no UTF-8.
#[unsafe(no_mangle)]
pub extern "C" fn amqp_sender_fail_pending_unsettled(
    alloc: Global,
    sender: &mut Object,
    detach: &Detach,
    condition: &[u8],
    description: &[u8],
    outcomes: &mut Object,
) -> Status
    ensures kind { sender_in (value_in sender.old) ≡ None → result ≡ wrong_status (value_in sender.old) }
    ensures failed { result ≡ 0 → OfSender sender.old sender.new (FailsPending (error_stated detach.now condition.now description.now)
        (outcomes_in (value_in outcomes.new))) }
    ensures made { result ≡ 0 → IsOutcomesObject outcomes.new }
    ensures no_text { result ≡ 4 → ¬ (AreTexts (IsTrue detach.now.has_error)
        detach.now.has_description condition.now description.now) }
    ensures utf8 { IsSome (sender_in (value_in sender.old)) → IsTextRefusal result ⊎ AreTexts (IsTrue detach.now.has_error)
        detach.now.has_description condition.now description.now }
    ensures condition { result ≡ 3 → IsTrue detach.now.has_error → IsUtf8 condition.now }
    ensures refused { IsSome (sender_in (value_in sender.old)) → (result ≡ 0) ⊎ IsTextRefusal result }
    ensures left { (result ≡ 0 → ⊥) →
        (value_in sender.new ≡ value_in sender.old) × (value_in outcomes.new ≡ value_in outcomes.old) }
{
    with_value!(alloc, sender, Sender, ledger => {
        fail_pending(alloc, ledger, detach, condition, description, outcomes)
    })
}
