//! Worked values of dispositions, and of the detach that closes a link, at both endpoints.
use amqp_link_types::delivery::DeliveryOutcome;
use amqp_link_types::frame::LinkFrame;
use amqp_link_types::types::{DeliveryState, DeliveryTag, Error, LinkStateError, Symbol};
use std::process::Abort;

mod closing;
pub(crate) mod receiver;
mod refused;
pub(crate) mod sender;

// An error with a condition alone.
fn error(rt: &(impl Abort + AllocGlobal)) -> Error {
    let condition = String::from_str(rt.alloc(), "x:y").expect(rt, "memory");
    Error {
        condition: Symbol::from(condition),
        description: None,
        info: None,
    }
}

// The fields of a disposition: the first and the last id, and whether it settles.
type DispositionFields = Option<(u32, Option<u32>, bool)>;

fn fields(frame: Option<&LinkFrame>) -> DispositionFields {
    match frame {
        Some(LinkFrame::Disposition(fields)) => Some((fields.first, fields.last, fields.settled)),
        _ => None,
    }
}

// How many frames there are, and the fields of the first four.
fn all_fields(frames: &[LinkFrame]) -> (usize, [DispositionFields; 4]) {
    let fields = [
        fields(frames.first()),
        fields(frames.get(1)),
        fields(frames.get(2)),
        fields(frames.get(3)),
    ];
    (frames.len(), fields)
}

// What is known of a delivery, or its outcome.
#[derive(Clone, Copy, Debug, PartialEq, Eq)]
enum Shown {
    Absent,
    NoState,
    Accepted,
    Released,
    Received(u32, u64),
    RemoteClosed,
    RemoteClosedWithError,
    Other,
}

fn shown_by_state(state: &Option<DeliveryState>) -> Shown {
    match state {
        None => Shown::NoState,
        Some(DeliveryState::Accepted) => Shown::Accepted,
        Some(DeliveryState::Released) => Shown::Released,
        Some(
            DeliveryState::Received {
                section_number,
                section_offset,
            },
        ) => Shown::Received(*section_number, *section_offset),
        _ => Shown::Other,
    }
}

fn shown_by(outcome: Option<&(DeliveryTag, DeliveryOutcome)>) -> Shown {
    match outcome {
        None => Shown::Absent,
        Some((_, Ok(state))) => shown_by_state(state),
        Some((_, Err(LinkStateError::RemoteClosed))) => Shown::RemoteClosed,
        Some((_, Err(LinkStateError::RemoteClosedWithError(_)))) => Shown::RemoteClosedWithError,
        _ => Shown::Other,
    }
}
