//! A body that is not decoded: its bytes are neither read nor copied.
use amqp_link::errors::DecodeError;
use amqp_link::types::{FromBody, Message, Payload};
use std::alloc::Global;

/// Nothing of a message.
#[derive(Drop)]
pub struct Unread;

impl FromBody for Unread {
    ghost use Rattle.std.specs.Prelude.{[], Ok};

    ghost decoded = { λ bytes. Ok (record { preamble = []; body = record {}; footer = [] }) };

    ghost memory_aside = { λ bytes e. Prim.cc };

    fn decode_from_pieces(
        _alloc: Global,
        _pieces: &[Payload],
    ) -> Result<Message<Unread>, DecodeError> {
        Ok(Message {
            preamble: Payload::new(),
            body: Unread,
            footer: Payload::new(),
        })
    }
}
