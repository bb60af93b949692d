//! A body that is one data section (3.2.6).
ghost use Rattle.std.specs.Prelude.{◌≡◌, ◌≤◌, ◌⊎◌, ◌++◌};
ghost use Rattle.std.specs.Prelude.{ℕ, List, drop, length, Some, None, IfSome, IfNone, Ok, Err, MatchResult};
ghost use Rattle.std.specs.List.{concat};
ghost use Rattle.std.proofs.Common.{rules};
ghost use Rattle.amqp_link_payloads.specs.Bodies.{data_message};
ghost use Rattle.amqp_link_payloads.specs.Pieces.{full_count};
ghost use Rattle.amqp_link_payloads.specs.Section.{Form, descriptor, contents_of, IsBinary};
ghost use Rattle.amqp_link_payloads.specs.declared.error.DecodeError.TheVariants.{NotOneDataSection, OutOfMemory};

use crate::error::DecodeError;
use crate::message::join::{copy_all, only_full};
use crate::message::{FromBody, Message};
use crate::payload::Payload;
use bytes::Bytes;
use std::alloc::Global;

/// The data of a payload that is exactly one data section, in any of its forms (3.2.6). All other payloads
/// are refused with `NotOneDataSection`. Bytes of one piece are shared, those of several are copied once.
#[derive(Debug, PartialEq, Eq, Drop)]
pub struct DataBody(pub Payload);

impl FromBody for DataBody {
    ghost decoded = { data_message };

    ghost memory_aside = { λ bytes e. Prim.search rules };

    // Bytes in one piece are tested before they are shared, so that wrong ones are refused by their name and
    // never as out of memory.
    fn decode_from_pieces(
        alloc: Global,
        pieces: &[Payload],
    ) -> Result<Message<DataBody>, DecodeError>
        ensures decoded { MatchResult result
            (λ message. data_message (concat pieces.now) ≡ Ok message)
            (λ error. (error ≡ OutOfMemory) ⊎ (data_message (concat pieces.now) ≡ Err error)) }
        ensures memory { full_count pieces.now ≤ 1
            → IfNone (contents_of (concat pieces.now)) (result ≡ Err NotOneDataSection) }
    {
        match only_full(pieces) {
            Some(piece) => data_of(piece),
            None => data_of(&copy_all(alloc, pieces)?),
        }
    }
}

// The data of bytes that are exactly one data section, which shares their buffer.
fn data_of(bytes: &Payload) -> Result<Message<DataBody>, DecodeError>
    ensures decoded { MatchResult result
        (λ message. data_message bytes.now ≡ Ok message)
        (λ error. (error ≡ OutOfMemory) ⊎ (data_message bytes.now ≡ Err error)) }
    ensures memory { IfNone (contents_of bytes.now) (result ≡ Err NotOneDataSection) }
{
    let start = contents_start(bytes.as_slice()).ok_or(DecodeError::NotOneDataSection)?;
    Ok(Message {
        preamble: Bytes::new(),
        body: DataBody(bytes.slice(start..)?),
        footer: Bytes::new(),
    })
}

// Where the data begins in bytes that are exactly one data section.
fn contents_start(bytes: &[u8]) -> Option<usize>
    ensures some { IfSome result (λ start. (start ≤ length bytes.now)
        × (contents_of bytes.now ≡ Some (drop start bytes.now))) }
    ensures none { IfNone result (contents_of bytes.now ≡ None) }
{
    let contents = binary_contents(after_descriptor(bytes)?)?;
    Some(bytes.len() - contents.len())
}

// What follows the descriptor of a data section, in either form (3.2.6).
fn after_descriptor(bytes: &[u8]) -> Option<&[u8]>
    ensures some { IfSome result (λ rest. (d : Form) × (bytes.now ≡ descriptor d ++ rest.now)) }
    ensures none { IfNone result ((d : Form) (rest : List ℕ)
        → bytes.now ≡ descriptor d ++ rest → ⊥) }
{
    match bytes {
        [0x00, 0x53, 0x75, rest @ ..] => Some(rest),
        [0x00, 0x80, 0, 0, 0, 0, 0, 0, 0, 0x75, rest @ ..] => Some(rest),
        _ => None,
    }
}

// The contents of the binary value that these bytes are, if they are exactly one (1.6.19).
fn binary_contents(value: &[u8]) -> Option<&[u8]>
    ensures some { IfSome result (λ rest. IsBinary value.now rest.now) }
    ensures none { IfNone result ((rest : List ℕ) → IsBinary value.now rest → ⊥) }
{
    match value {
        [0xA0, len, contents @ ..] if *len as usize == contents.len() => Some(contents),
        [0xB0, a, b, c, d, contents @ ..]
            if u32::from_be_bytes([*a, *b, *c, *d]) as usize == contents.len() => { Some(contents) }
        _ => None,
    }
}
