//! The answer of the pair to an event, as it is printed.
use crate::event::Event;
use crate::hex::{Hex, HexPieces};
use amqp_link::pair::{Answer as Returned, Event as Call, Pair, PairError};
use amqp_link::{Delivery, DeliveryState, DeliveryTag, Fate, Payload, Whole};
use std::{array, fmt};

/// The answer to an event.
#[derive(Drop)]
pub enum Answer<'a> {
    /// The answer of a call.
    Called(Returned),
    /// The tag of the delivery that was settled.
    Settled(&'a DeliveryTag),
    /// The tag of the delivery that was withdrawn.
    Withdrawn(&'a DeliveryTag),
    /// The pieces that the receiver holds, in order.
    Joined(&'a [Payload]),
    /// What became of the registration.
    Became(&'a Fate),
    /// The receiver holds nothing under that tag, or no registration has that number.
    Unknown,
}

/// Performs an event on the pair. A refusal is the pair's own.
pub fn perform<'a>(pair: &'a mut Pair, event: &'a Event) -> Result<Answer<'a>, PairError> {
    Ok(match event {
        Event::Call(call) => {
            let returned = run_one(pair, call)?;
            match call {
                Call::Settle(tag) => Answer::Settled(tag),
                Call::Withdraw(tag) => Answer::Withdrawn(tag),
                _ => Answer::Called(returned),
            }
        }
        Event::Show(tag) => match pair.held(tag) {
            Some(held) => Answer::Joined(held.pieces()),
            None => Answer::Unknown,
        },
        Event::Fate(number) => match pair.ledger().fate(*number as usize) {
            Some(fate) => Answer::Became(fate),
            None => Answer::Unknown,
        },
    })
}

// Runs one call. Without room for its answer the call is not made.
fn run_one(pair: &mut Pair, call: &Call) -> Result<Returned, PairError> {
    let (mut answers, _) = pair.run(array::from_ref(call));
    answers.pop().unwrap_or(Err(PairError::OutOfMemory))
}

impl fmt::Display for Answer<'_> {
    fn fmt<W: fmt::Write>(&self, f: &mut fmt::Formatter<W>) -> fmt::Result {
        match self {
            Answer::Called(returned) => write_returned(f, returned),
            Answer::Settled(tag) => write_tagged(f, "settled", tag),
            Answer::Withdrawn(tag) => write_tagged(f, "withdrawn", tag),
            Answer::Joined(pieces) => {
                let bytes = HexPieces(pieces);
                write!(f, "joined {bytes}")
            }
            Answer::Became(fate) => f.write_str(fate_text(fate)),
            Answer::Unknown => f.write_str("unknown"),
        }
    }
}

// The answer of a call. A settlement's and a withdrawal's have no tag.
fn write_returned<W: fmt::Write>(f: &mut fmt::Formatter<W>, returned: &Returned) -> fmt::Result {
    match returned {
        Returned::Attached(count) => write!(f, "attached {count}"),
        Returned::Granted(credit) => write!(f, "credit {credit}"),
        Returned::Sent { tag, frames } => write_counted(f, "sent", tag, *frames),
        Returned::Arrived {
            tag,
            section_number,
            section_offset,
            whole,
        } => {
            let word = if *whole { "whole" } else { "held" };
            let tag = Hex(tag.as_bytes());
            write!(f, "{word} {tag} {section_number} {section_offset}")
        }
        Returned::Cut => f.write_str("cut"),
        Returned::Resumed {
            tag,
            frames,
            resume,
        } => {
            let word = if *resume { "resumed" } else { "resent" };
            write_counted(f, word, tag, *frames)
        }
        Returned::PutBack(tag) => write_tagged(f, "back", tag),
        Returned::HandedOut(delivery) => write_delivery(f, delivery),
        Returned::Aborted(tag) => write_tagged(f, "aborted", tag),
        Returned::Settled => f.write_str("settled"),
        Returned::Withdrawn => f.write_str("withdrawn"),
    }
}

// A word and a tag.
fn write_tagged<W: fmt::Write>(
    f: &mut fmt::Formatter<W>,
    word: &str,
    tag: &DeliveryTag,
) -> fmt::Result {
    let tag = Hex(tag.as_bytes());
    write!(f, "{word} {tag}")
}

// A word, a tag, and how many transfers carry its delivery.
fn write_counted<W: fmt::Write>(
    f: &mut fmt::Formatter<W>,
    word: &str,
    tag: &DeliveryTag,
    frames: usize,
) -> fmt::Result {
    let tag = Hex(tag.as_bytes());
    write!(f, "{word} {tag} {frames}")
}

// A delivery's tag, and the bytes of its message.
fn write_delivery<W: fmt::Write>(
    f: &mut fmt::Formatter<W>,
    delivery: &Delivery<Whole>,
) -> fmt::Result {
    let tag = Hex(delivery.delivery_tag().as_bytes());
    let bytes = Hex(delivery.body().0.as_slice());
    write!(f, "delivery {tag} {bytes}")
}

// What became of a registration, in words.
fn fate_text(fate: &Fate) -> &'static str {
    match fate {
        Fate::Pending => "pending",
        Fate::Withdrawn => "withdrawn",
        Fate::HandedOut => "handed-out",
        Fate::Resolved(Ok(Some(DeliveryState::Accepted))) => "resolved accepted",
        Fate::Resolved(_) => "resolved",
        Fate::Released => "released",
    }
}
