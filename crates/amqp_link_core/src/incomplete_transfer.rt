//! A delivery that arrives in several transfers (2.7.5).
//!
//! The fields of all its transfers are merged as they arrive; its bytes are kept in the pieces in which they
//! arrived. The first transfer carries the id, tag and format of the delivery; a continuation may leave them
//! out, and is refused if it carries others.
ghost use Rattle.std.specs.Prelude.{◌≡◌, ◌++◌, [], ◌∷◌};
ghost use Rattle.std.specs.Prelude.{List, Some, not, nat_eq, length, IfOk, IfErr, OnOk, OnErr};
ghost use Rattle.std.specs.Str.{bytes_eq};
ghost use Rattle.std.specs.Option.{option_or};
ghost use Rattle.amqp_link_payloads.specs.Position.{position};
ghost use Rattle.amqp_link_core.specs.Merging.{Came, Merged, IsSilent, opening, following};
ghost use Rattle.amqp_link_core.specs.Held.{held_bytes};
ghost use Rattle.amqp_link_types.specs.Refusals.{AnswersThenOutOfMemory};
ghost use Rattle.amqp_link_core.specs.IncompleteRefusals.{start_tests, append_tests, long_test};
ghost use Rattle.amqp_link_core.specs.IncompleteRefusals.{AreReturned, is_inconsistent, with_error};
ghost use Rattle.amqp_link_core.specs.IncompleteRefusals;

mod merging;
mod pieces;
mod refused;
mod resuming;

use crate::incomplete_transfer::merging::merge;
use crate::incomplete_transfer::pieces::push_piece;
pub use crate::incomplete_transfer::refused::RefusedTransfer;
use crate::position_carry::PositionCarry;
use amqp_link_types::types::{DeliveryTag, Payload, ReceiverTransferError, Transfer};
use std::alloc::{AllocError, Global};
use std::marker::Model;

/// A delivery whose last transfer has not arrived, or that was not handed out yet.
///
/// A contract sees the merged transfer and the pieces. The delivery always has a tag, and as many bytes and
/// sections as can be counted.
#[derive(Debug, Drop)]
pub struct IncompleteTransfer {
    performative: Transfer,
    pieces: Vec<Payload>,
    carry: PositionCarry,
}

impl Model for IncompleteTransfer {
    ghost use Rattle.std.specs.Prelude.{◌≡◌, is_some, IsTrue};
    ghost use Rattle.std.specs.List.{concat};
    ghost use Rattle.std.specs.Coded.{codes};
    ghost use Rattle.amqp_link_values.specs.contracts.fields.Fields as fields;
    ghost use Rattle.amqp_link_core.specs.Held.{Held};
    ghost use Rattle.amqp_link_core.specs.Carries.{IsKept};

    ghost Value = { Held };

    ghost coded = { Prim.hlevel (codes, fields.the_row.coded) };

    ghost view = { λ a. record { performative = a.performative; pieces = a.pieces.items } };

    ghost invariant = { λ a. IsTrue (is_some a.performative.delivery_tag)
        × IsKept a.carry (concat a.pieces.items) };
}

impl IncompleteTransfer {
    /// Begins a delivery with its first transfer, which it keeps as it is. A refused one is dropped with its payload;
    /// `start_or_return` hands it back.
    ///
    /// Refused in this order: `DeliveryIdIsNone`, `DeliveryTagIsNone`, `PayloadTooLong`, and only
    /// then `OutOfMemory`. Reads the payload once, for its position.
    pub fn start(
        alloc: Global,
        transfer: Transfer,
        payload: Payload,
    ) -> Result<IncompleteTransfer, ReceiverTransferError>
        ensures ok { IfOk result (λ held.
            held ≡ record { performative = transfer; pieces = payload ∷ [] }) }
        ensures merged { IfOk result (λ held. Merged (opening transfer ∷ []) held.performative) }
        ensures bytes { IfOk result (λ held. held_bytes held ≡ payload) }
        ensures refused { AnswersThenOutOfMemory ReceiverTransferError.OutOfMemory
            result (start_tests transfer payload) }
    {
        match IncompleteTransfer::start_or_return(alloc, transfer, payload) {
            Ok(held) => Ok(held),
            Err(refused) => Err(refused.into_error()),
        }
    }

    /// The same, except that a refused transfer is handed back with its payload.
    pub fn start_or_return(
        alloc: Global,
        transfer: Transfer,
        payload: Payload,
    ) -> Result<IncompleteTransfer, RefusedTransfer>
        ensures ok { IfOk result (λ held.
            held ≡ record { performative = transfer; pieces = payload ∷ [] }) }
        ensures merged { IfOk result (λ held. Merged (opening transfer ∷ []) held.performative) }
        ensures refused { AnswersThenOutOfMemory ReceiverTransferError.OutOfMemory
            (with_error result) (start_tests transfer payload) }
        ensures back { IfErr result (λ refused. AreReturned transfer payload refused) }
    {
        if transfer.delivery_id.is_none() {
            let error = ReceiverTransferError::DeliveryIdIsNone; // asked of a first transfer (2.7.5)
            return Err(RefusedTransfer::new(error, transfer, payload));
        }
        if transfer.delivery_tag.is_none() {
            let error = ReceiverTransferError::DeliveryTagIsNone;
            return Err(RefusedTransfer::new(error, transfer, payload));
        }
        let mut pieces = Vec::new(alloc);
        match push_piece(&mut pieces, PositionCarry::new(), payload) {
            Ok(carry) => Ok(IncompleteTransfer {
                performative: transfer,
                pieces,
                carry,
            }),
            Err((error, payload)) => {
                drop(pieces);
                Err(RefusedTransfer::new(error, transfer, payload))
            }
        }
    }

    /// Adds a continuation. The transfer may leave out its tag, id and format.
    ///
    /// Refused in this order, with nothing changed: `InconsistentFieldInMultiFrameDelivery`,
    /// `PayloadTooLong`, and only then `OutOfMemory`. Reads the payload once, and none of the bytes before it.
    pub fn try_append(
        &mut self,
        transfer: Transfer,
        payload: Payload,
    ) -> Result<(), ReceiverTransferError>
        // Whatever transfers arrived before, the fields are those of all of them and this one.
        ensures merged { OnOk result ((came : List Came) → Merged came self.old.performative
            → Merged (came ++ following transfer ∷ []) self.new.performative) }
        ensures pieces { OnOk result (self.new.pieces ≡ self.old.pieces ++ payload ∷ []) }
        ensures bytes { OnOk result (held_bytes self.new ≡ held_bytes self.old ++ payload) }

        // The part of it that a caller needs most.
        ensures tag { OnOk result
            (self.new.performative.delivery_tag ≡ self.old.performative.delivery_tag) }
        ensures id { OnOk result
            (self.new.performative.delivery_id ≡ self.old.performative.delivery_id) }
        ensures format { OnOk result (self.new.performative.message_format
            ≡ option_or self.old.performative.message_format transfer.message_format) }
        ensures silent { OnOk result (IsSilent transfer
            → self.new.performative ≡ self.old.performative) }

        ensures refused { AnswersThenOutOfMemory ReceiverTransferError.OutOfMemory
            result (append_tests self.old transfer payload) }
        ensures left { OnErr result (self.new ≡ self.old) }
    {
        match self.append(transfer, payload) {
            Ok(()) => Ok(()),
            Err(refused) => Err(refused.into_error()),
        }
    }

    // The same, except that a refused transfer is handed back with its payload.
    pub(crate) fn append(
        &mut self,
        transfer: Transfer,
        payload: Payload,
    ) -> Result<(), RefusedTransfer>
        ensures merged { OnOk result ((came : List Came) → Merged came self.old.performative
            → Merged (came ++ following transfer ∷ []) self.new.performative) }
        ensures pieces { OnOk result (self.new.pieces ≡ self.old.pieces ++ payload ∷ []) }
        ensures refused { AnswersThenOutOfMemory ReceiverTransferError.OutOfMemory
            (with_error result) (append_tests self.old transfer payload) }
        ensures back { IfErr result (λ refused. AreReturned transfer payload refused) }
        ensures left { OnErr result (self.new ≡ self.old) }
    {
        if self.is_inconsistent_with(&transfer) {
            let error = ReceiverTransferError::InconsistentFieldInMultiFrameDelivery; // (2.7.5)
            return Err(RefusedTransfer::new(error, transfer, payload));
        }
        self.add(transfer, payload, false)
    }

    // Adds a transfer whose fields are not refused; one that resumes the delivery gives it its id. If its
    // payload is refused nothing changes.
    pub(crate) fn add(
        &mut self,
        transfer: Transfer,
        payload: Payload,
        opens: bool,
    ) -> Result<(), RefusedTransfer>
        ensures merged { OnOk result ((came : List Came) → Merged came self.old.performative
            → Merged (came ++ record { opens = opens; transfer = transfer } ∷ [])
            self.new.performative) }
        ensures pieces { OnOk result (self.new.pieces ≡ self.old.pieces ++ payload ∷ []) }
        ensures refused { AnswersThenOutOfMemory ReceiverTransferError.OutOfMemory
            (with_error result) (long_test (held_bytes self.old ++ payload)) }
        ensures back { IfErr result (λ refused. AreReturned transfer payload refused) }
        ensures left { OnErr result (self.new ≡ self.old) }
    {
        match push_piece(&mut self.pieces, self.carry, payload) {
            Ok(carry) => {
                self.carry = carry;
                merge(&mut self.performative, transfer, opens);
                Ok(())
            }
            Err((error, payload)) => Err(RefusedTransfer::new(error, transfer, payload)),
        }
    }

    // Whether a transfer carries another tag, id or format than the delivery's.
    fn is_inconsistent_with(&self, transfer: &Transfer) -> bool
        ensures { result ≡ is_inconsistent self.now.performative transfer.now }
    {
        !self.is_same_delivery_as(transfer)
            || differs(self.performative.delivery_id, transfer.delivery_id)
            || differs(self.performative.message_format, transfer.message_format)
    }

    /// Whether a transfer can belong to this delivery: it has the delivery's tag, or none.
    pub fn is_same_delivery_as(&self, transfer: &Transfer) -> bool
        ensures { result ≡ not (IncompleteRefusals.differs bytes_eq
            self.now.performative.delivery_tag transfer.now.delivery_tag) }
    {
        match &transfer.delivery_tag {
            Some(tag) => tag == self.delivery_tag(),
            None => true,
        }
    }

    /// The tag of the delivery, that of its first transfer.
    pub fn delivery_tag(&self) -> &DeliveryTag
        ensures { self.now.performative.delivery_tag ≡ Some result.now }
    {
        match &self.performative.delivery_tag {
            Some(tag) => tag,
            None => unreachable!(),
        }
    }

    /// The number of the section in which the bytes end, counted from 0. Reads no bytes.
    pub fn section_number(&self) -> u32
        ensures { result ≡ (position (held_bytes self.now)).0 }
    {
        self.position().0
    }

    /// The bytes since the start of that section. Reads no bytes.
    pub fn section_offset(&self) -> u64
        ensures { result ≡ (position (held_bytes self.now)).1 }
    {
        self.position().1
    }

    /// The number of the section in which the bytes end, counted from 0, and the bytes since the start
    /// of that section. Reads no bytes.
    pub fn position(&self) -> (u32, u64)
        ensures { result ≡ position (held_bytes self.now) }
    {
        self.carry.position()
    }

    /// The number of bytes that have arrived.
    pub fn accumulated_payload_size(&self) -> u64
        ensures { result ≡ length (held_bytes self.now) }
    {
        self.carry.len()
    }

    /// The fields of all transfers that have arrived, merged; `more` is that of the first.
    pub fn performative(&self) -> &Transfer
        ensures { result.now ≡ self.now.performative }
    {
        &self.performative
    }

    /// The payloads of the transfers, in the order in which they arrived, empty ones included.
    pub fn pieces(&self) -> &[Payload]
        ensures { result.now ≡ self.now.pieces }
    {
        self.pieces.as_slice()
    }

    /// The merged transfer, the pieces, and the number and offset of the section in which they end. Does not
    /// allocate.
    pub fn into_parts(self) -> (Transfer, Vec<Payload>, u32, u64)
        ensures performative { result.0 ≡ self.performative }
        ensures pieces { result.1.items ≡ self.pieces }
        ensures position { (result.2, result.3) ≡ position (held_bytes self) }
    {
        let (number, offset) = self.position();
        (self.performative, self.pieces, number, offset)
    }
}

impl Clone for IncompleteTransfer {
    ghost is_clone = { λ held copy. copy ≡ held };

    fn clone(&self) -> Result<IncompleteTransfer, AllocError> {
        let performative = self.performative.clone()?;
        match self.pieces.clone() {
            Ok(pieces) => Ok(IncompleteTransfer {
                performative,
                pieces,
                carry: self.carry,
            }),
            Err(refused) => {
                drop(performative);
                Err(refused)
            }
        }
    }
}

// Whether both are there, and not the same.
fn differs(known: Option<u32>, carried: Option<u32>) -> bool
    ensures { result ≡ IncompleteRefusals.differs nat_eq known carried }
{
    match (known, carried) {
        (Some(known), Some(carried)) => known != carried,
        _ => false,
    }
}
