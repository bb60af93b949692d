//! Messages, and how a body is decoded from the pieces of a delivery's payload (3.2).
//!
//! Only the joined bytes count: where they are cut into pieces makes no difference.
ghost use Rattle.std.specs.Prelude.{◌≡◌, ◌⊎◌, ℕ, List, Result, MatchResult, Ok, Err};
ghost use Rattle.std.specs.List.{concat};
ghost use Rattle.amqp_link_payloads.specs.declared.message.Message.{Message as TheMessage};
ghost use Rattle.amqp_link_payloads.specs.declared.error.DecodeError.{DecodeError as TheError};
ghost use Rattle.amqp_link_payloads.specs.declared.error.DecodeError.TheVariants.{OutOfMemory};

pub mod data_body;
mod join;
pub mod whole;

use crate::error::DecodeError;
use crate::payload::Payload;
use std::alloc::Global;

/// A message: the bytes before its body, the body, and the bytes after it (3.2).
#[derive(Debug, PartialEq, Eq, Drop)]
pub struct Message<T> {
    /// The bytes of the sections before the body.
    pub preamble: Payload,
    /// The decoded body.
    pub body: T,
    /// The bytes of the sections after the body.
    pub footer: Payload,
}

/// A body that can be decoded from the pieces of a delivery's payload.
///
/// Out of memory aside, the result is a function of the joined bytes: `decoded`, which each body type states.
pub trait FromBody: Drop {
    /// What these bytes are decoded as, out of memory aside.
    ghost decoded: { List ℕ → Result (TheMessage Self) TheError };

    /// Decodes the message whose payload arrived in these pieces. May allocate.
    fn decode_from_pieces(alloc: Global, pieces: &[Payload]) -> Result<Message<Self>, DecodeError>
        ensures { MatchResult result
            (λ message. decoded (concat pieces.now) ≡ Ok message)
            (λ error. (error ≡ DecodeError.OutOfMemory)
            ⊎ (decoded (concat pieces.now) ≡ Err error)) };

    /// That function never returns out of memory.
    ghost memory_aside: { (bytes : List ℕ) → decoded bytes ≡ Err OutOfMemory → ⊥ };
}
