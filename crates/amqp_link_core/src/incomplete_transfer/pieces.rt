//! The pieces of a payload, and whether they can be counted.
ghost use Rattle.std.specs.Prelude.{◌≡◌, ◌+◌, ◌^◌, ◌<◌, ◌≤◌, ◌++◌, ◌∷◌, []};
ghost use Rattle.std.specs.Prelude.{false, length, take, slice_get, OnOk, OnErr, IfOk, IfErr, IsSomeAnd};
ghost use Rattle.std.specs.List.{concat};
ghost use Rattle.amqp_link_core.specs.Carries.{HasPushed, IsKept};
ghost use Rattle.amqp_link_types.specs.Refusals.{AnswersThenOutOfMemory};
ghost use Rattle.amqp_link_core.specs.IncompleteRefusals.{first_error, long_test};
ghost use Rattle.amqp_link_payloads.specs.Sections.{is_too_long};

use crate::position_carry::PositionCarry;
use amqp_link_types::types::{Payload, ReceiverTransferError};
use std::alloc::AllocError;

// Makes room for the first piece, and for no other: most deliveries arrive in one transfer.
fn reserve_first(pieces: &mut Vec<Payload>) -> Result<(), AllocError>
    ensures { pieces.new.items ≡ pieces.old.items }
{
    if pieces.is_empty() {
        pieces.reserve_exact(1)?;
    }
    Ok(())
}

// Adds a piece to pieces with this position, and returns the new position. If it is refused it is handed back, and the
// pieces stay as they are. Reads the new piece alone.
pub(crate) fn push_piece(
    pieces: &mut Vec<Payload>,
    carry: PositionCarry,
    piece: Payload,
) -> Result<PositionCarry, (ReceiverTransferError, Payload)>
    requires { HasPushed carry (concat pieces.old.items) }
    ensures pushed { OnOk result (pieces.new.items ≡ pieces.old.items ++ piece ∷ []) }
    ensures carry { IfOk result (λ next. IsKept next (concat pieces.new.items)) }
    ensures refused { AnswersThenOutOfMemory ReceiverTransferError.OutOfMemory
        (first_error result) (long_test (concat pieces.old.items ++ piece)) }
    ensures back { IfErr result (λ refused. refused.1 ≡ piece) }
    ensures left { OnErr result (pieces.new.items ≡ pieces.old.items) }
{
    let mut next = carry;
    if let Err(refused) = next.push(&piece) {
        return Err((refused, piece));
    }
    if reserve_first(pieces).is_err() {
        return Err((ReceiverTransferError::OutOfMemory, piece));
    }
    match pieces.push(piece) {
        Ok(()) => Ok(next),
        Err(refused) => Err((ReceiverTransferError::OutOfMemory, refused.value)),
    }
}

// The position of the end of pieces that are not too long. Reads them all.
pub(crate) fn carry_of(pieces: &[Payload]) -> PositionCarry
    requires { is_too_long (concat pieces.now) ≡ false }
    ensures { HasPushed result (concat pieces.now) }
{
    let mut carry = PositionCarry::new();
    for piece in pieces {
        let Ok(()) = carry.push(piece) else {
            unreachable!();
        };
    }
    carry
}

// Keeps the first `size` bytes of the pieces: some pieces whole, and a front of the next one. If it is out of
// memory the pieces stay as they are.
pub(crate) fn cut_pieces(pieces: &mut Vec<Payload>, size: u64) -> Result<(), AllocError>
    requires { size ≤ length (concat pieces.old.items) }
    ensures prefix { OnOk result (concat pieces.new.items ≡ take size (concat pieces.old.items)) }
    ensures left { OnErr result (pieces.new.items ≡ pieces.old.items) }
{
    let (whole, rest) = cut_at(pieces.as_slice(), size);
    if rest > 0 {
        let front = pieces[whole].slice(..rest)?;
        // All allocations are done.
        pieces[whole] = front;
        pieces.truncate(whole + 1);
    } else {
        pieces.truncate(whole);
    }
    Ok(())
}

// How many pieces lie whole within this many bytes, and how many bytes of the next one do.
fn cut_at(pieces: &[Payload], size: u64) -> (usize, usize)
    requires { size ≤ length (concat pieces.now) }
    ensures size { length (concat (take result.0 pieces.now)) + result.1 ≡ size }
    ensures within { 0 < result.1
        → IsSomeAnd (slice_get pieces.now result.0) (λ piece. result.1 ≤ length piece) }
{
    let mut rest = size;
    for (i, piece) in pieces.iter().enumerate() {
        if rest < piece.len() as u64 {
            return (i, rest as usize);
        }
        rest -= piece.len() as u64;
    }
    (pieces.len(), 0)
}
