//! What follows from an attach that was refused (2.6.3).
ghost use Rattle.std.specs.Prelude.{◌≡◌, ◌⊎◌, None, IsSome, MatchOption};
ghost use Rattle.amqp_link_c.specs.Calls.{IsFramesObject, OfReceiver, OfSender, wrong_status};
ghost use Rattle.amqp_link_c.specs.Failing.{FailsReceiver, FailsSender, action_frames, follows, is_session_end, state_following};
ghost use Rattle.amqp_link_object.specs.Objects.{value_in};
ghost use Rattle.amqp_link_object.specs.States.{frames_in, receiver_in, sender_in};

use amqp_link_endpoint::endpoint::LinkExt;
use amqp_link_endpoint::endpoint::failing::{Action, AttachFailure};
use amqp_link_flat::status::{
    EMPTY, OK, OUT_OF_MEMORY, Status, WRONG_KIND, receiver_attach_refusal, sender_attach_refusal,
};
use amqp_link_object::{Object, Room, State};
use std::alloc::Global;

// Puts what is to be sent into an object, and says whether the session is to be ended.
fn put_action(
    alloc: Global,
    action: Action,
    room: Room,
    frames: &mut Object,
    ends_session: &mut bool,
)
    ensures frames { frames_in (value_in frames.new) ≡ action_frames action }
    ensures made { IsFramesObject frames.new }
    ensures ends { ends_session.new ≡ is_session_end action }
{
    *ends_session = false;
    match action {
        Action::Nothing => frames.fill(room, State::Frames(Vec::new(alloc))),
        Action::Detach(frame) => frames.fill(room, State::Frame(frame)),
        Action::EndSession(error) => {
            drop(error);
            *ends_session = true;
            frames.fill(room, State::Frames(Vec::new(alloc)));
        }
    }
}

// Makes what follows from a refusal.
fn fail<L: LinkExt, E: AttachFailure>(
    alloc: Global,
    link: &mut L,
    refusal: Option<E>,
    frames: &mut Object,
    ends_session: &mut bool,
) -> Status
    ensures frames { result ≡ 0 → frames_in (value_in frames.new) ≡ action_frames
        (follows E.illegal_state E.remedy refusal (L.shown link.old).local_state (L.shown link.old).output_handle) }
    ensures made { result ≡ 0 → IsFramesObject frames.new }
    ensures ends { result ≡ 0 → ends_session.new ≡ is_session_end
        (follows E.illegal_state E.remedy refusal (L.shown link.old).local_state (L.shown link.old).output_handle) }
    ensures after { result ≡ 0 → MatchOption (state_following E.remedy refusal (L.shown link.old).local_state)
        (link.new ≡ link.old)
        (λ next. link.new ≡ L.moved link.old next None) }
    ensures refused { (result ≡ 0) ⊎ (result ≡ 3) }
    ensures left { (result ≡ 0 → ⊥) → (link.new ≡ link.old) × (value_in frames.new ≡ value_in frames.old)
        × (ends_session.new ≡ ends_session.old) }
{
    let Some(room) = Room::new(alloc) else {
        drop(refusal);
        return OUT_OF_MEMORY;
    };
    let Some(refusal) = refusal else {
        put_action(alloc, Action::Nothing, room, frames, ends_session);
        return OK;
    };
    match link.handle_attach_error(refusal) {
        Ok((error, action)) => {
            drop(error);
            put_action(alloc, action, room, frames, ends_session);
            OK
        }
        Err(_) => {
            drop(room);
            OUT_OF_MEMORY
        }
    }
}

/// What follows from the status with which `amqp_sender_on_attach` or `amqp_sender_send_attach` was refused, or with
/// which the session names what has arrived in place of the attach: `frames` gets the detach that closes the link, which is left
/// as by `amqp_link_send_detach`, or no frame. `ends_session` is set if the session is to be ended with
/// `amqp:session:handle-in-use`.
///
/// There is a detach only in `AMQP_STATE_ATTACHED`. If the own attach was not sent yet, send it, and call this again. After an
/// incomplete exchange, `AMQP_STATE_INCOMPLETE_ATTACH_EXCHANGED`, send the detach of `amqp_link_detach_frame`.
#[unsafe(no_mangle)]
pub extern "C" fn amqp_sender_attach_failed(
    alloc: Global,
    sender: &mut Object,
    status: u32,
    frames: &mut Object,
    ends_session: &mut bool,
) -> Status
    ensures kind { sender_in (value_in sender.old) ≡ None → result ≡ wrong_status (value_in sender.old) }
    ensures done { result ≡ 0 → OfSender sender.old sender.new
        (FailsSender status (frames_in (value_in frames.new)) ends_session.new) }
    ensures made { result ≡ 0 → IsFramesObject frames.new }
    ensures refused { IsSome (sender_in (value_in sender.old)) → (result ≡ 0) ⊎ (result ≡ 3) }
    ensures left { (result ≡ 0 → ⊥) →
        (value_in sender.new ≡ value_in sender.old) × (value_in frames.new ≡ value_in frames.old)
        × (ends_session.new ≡ ends_session.old) }
{
    with_value!(alloc, sender, Sender, ledger => {
        fail(alloc, ledger, sender_attach_refusal(status), frames, ends_session)
    })
}

/// The same for `amqp_receiver_on_attach` and `amqp_receiver_send_attach`.
#[unsafe(no_mangle)]
pub extern "C" fn amqp_receiver_attach_failed(
    alloc: Global,
    receiver: &mut Object,
    status: u32,
    frames: &mut Object,
    ends_session: &mut bool,
) -> Status
    ensures kind { receiver_in (value_in receiver.old) ≡ None → result ≡ wrong_status (value_in receiver.old) }
    ensures done { result ≡ 0 → OfReceiver receiver.old receiver.new
        (FailsReceiver status (frames_in (value_in frames.new)) ends_session.new) }
    ensures made { result ≡ 0 → IsFramesObject frames.new }
    ensures refused { IsSome (receiver_in (value_in receiver.old)) → (result ≡ 0) ⊎ (result ≡ 3) }
    ensures left { (result ≡ 0 → ⊥) →
        (value_in receiver.new ≡ value_in receiver.old) × (value_in frames.new ≡ value_in frames.old)
        × (ends_session.new ≡ ends_session.old) }
{
    with_value!(alloc, receiver, Receiver, inbox => {
        fail(alloc, inbox, receiver_attach_refusal(status), frames, ends_session)
    })
}
