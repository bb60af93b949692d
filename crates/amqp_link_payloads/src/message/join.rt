//! Pieces of a payload, joined.
ghost use Rattle.std.specs.Prelude.{◌≡◌, ◌⊎◌, ◌<◌, [], IfOk, OnErr, IfSome, IfNone, length};
ghost use Rattle.std.specs.List.{concat};
ghost use Rattle.amqp_link_payloads.specs.Pieces.{full_count};

use crate::payload::{Payload, joined_len};
use bytes::Bytes;
use std::alloc::{AllocError, Global};

// The only piece that holds bytes: none if no piece does, or if more than one does.
pub(crate) fn only_full(pieces: &[Payload]) -> Option<&Payload>
    ensures joined { IfSome result (λ piece. piece.now ≡ concat pieces.now) }
    ensures full { IfSome result (λ piece. 0 < length piece.now) }
    ensures none { IfNone result ((concat pieces.now ≡ []) ⊎ (1 < full_count pieces.now)) }
{
    let mut only = None;
    for piece in pieces {
        if piece.is_empty() {
            continue;
        }
        if only.is_some() {
            return None;
        }
        only = Some(piece);
    }
    only
}

// The pieces as one payload, whose bytes are copied in one allocation.
#[tactic(auto, using(std::proofs::lemmas::List::Concat::concat_is))]
pub(crate) fn copy_all(alloc: Global, pieces: &[Payload]) -> Result<Payload, AllocError>
    ensures joined { IfOk result (λ whole. whole ≡ concat pieces.now) }
    ensures memory { OnErr result (0 < length (concat pieces.now)) }
{
    let len = joined_len(pieces).unwrap_or(u64::MAX);
    if len == 0 {
        return Ok(Bytes::new());
    }
    let mut bytes = Vec::with_capacity(alloc, len as usize)?;
    for piece in pieces {
        bytes.extend_from_slice(piece.as_slice())?;
    }
    Ok(Bytes::from_vec(bytes)?)
}

// The pieces as one payload: the only piece with bytes is shared, several are copied.
pub(crate) fn join(alloc: Global, pieces: &[Payload]) -> Result<Payload, AllocError>
    ensures joined { IfOk result (λ whole. whole ≡ concat pieces.now) }
    ensures memory { OnErr result (0 < length (concat pieces.now)) }
{
    match only_full(pieces) {
        Some(piece) => piece.clone(),
        None => copy_all(alloc, pieces),
    }
}
