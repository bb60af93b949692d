//! A body that is all bytes of a payload.
ghost use Rattle.std.specs.Prelude.{◌≡◌, ◌⊎◌, ◌<◌, length, Ok, Err, OnErr, MatchResult};
ghost use Rattle.std.specs.List.{concat};
ghost use Rattle.amqp_link_payloads.specs.Bodies.{whole_message};
ghost use Rattle.amqp_link_payloads.specs.declared.error.DecodeError.TheVariants.{OutOfMemory};

use crate::error::DecodeError;
use crate::message::join::join;
use crate::message::{FromBody, Message};
use crate::payload::Payload;
use bytes::Bytes;
use std::alloc::Global;

/// All joined bytes of a payload. No bytes are refused. Those of one piece are shared, those of several are copied once.
#[derive(Debug, PartialEq, Eq, Drop)]
pub struct Whole(pub Payload);

impl FromBody for Whole {
    ghost decoded = { whole_message };

    ghost memory_aside = { λ bytes e. Prim.cc };

    // Bytes in one piece are shared; without bytes nothing is allocated.
    fn decode_from_pieces(alloc: Global, pieces: &[Payload]) -> Result<Message<Whole>, DecodeError>
        ensures decoded { MatchResult result
            (λ message. whole_message (concat pieces.now) ≡ Ok message)
            (λ error. (error ≡ OutOfMemory) ⊎ (whole_message (concat pieces.now) ≡ Err error)) }
        ensures memory { OnErr result (0 < length (concat pieces.now)) }
    {
        let bytes = join(alloc, pieces)?;
        Ok(Message {
            preamble: Bytes::new(),
            body: Whole(bytes),
            footer: Bytes::new(),
        })
    }
}
