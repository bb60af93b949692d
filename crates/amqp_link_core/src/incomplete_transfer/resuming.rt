//! A delivery that was cut off, when it is resumed (2.6.13).
ghost use Rattle.std.specs.Prelude.{◌≡◌, ◌++◌, [], ◌∷◌, List, IsSome, IfErr, OnOk, OnErr, MatchOption, if◌then◌else◌};
ghost use Rattle.std.specs.Option.{option_or};
ghost use Rattle.amqp_link_payloads.specs.Position.{place};
ghost use Rattle.amqp_link_core.specs.Merging.{Came, Merged, IsSilent, opening, resumed};
ghost use Rattle.amqp_link_core.specs.Held.{held_bytes, KeepsFront};
ghost use Rattle.amqp_link_types.specs.Refusals.{AnswersThenOutOfMemory};
ghost use Rattle.amqp_link_core.specs.IncompleteRefusals.{AreReturned, add_tests, resume_tests, is_of_another, with_error};

use crate::incomplete_transfer::pieces::{carry_of, cut_pieces};
use crate::incomplete_transfer::{IncompleteTransfer, RefusedTransfer, differs};
use amqp_link_payloads::position::place_in;
use amqp_link_types::types::{Payload, ReceiverTransferError, Transfer};
use std::alloc::AllocError;

impl IncompleteTransfer {
    /// Resumes the delivery with the first transfer of its resumption, whose id replaces the delivery's. The
    /// payload follows the bytes that are held.
    ///
    /// Refused in this order, with nothing changed: `DeliveryIdIsNone`, `DeliveryTagIsNone`,
    /// `InconsistentFieldInMultiFrameDelivery` (another tag or format), `PayloadTooLong`, and only then
    /// `OutOfMemory`. Reads the payload once, and none of the bytes before it.
    pub fn try_resume(
        &mut self,
        transfer: Transfer,
        payload: Payload,
    ) -> Result<(), ReceiverTransferError>
        // Whatever transfers arrived before, the fields are those of all of them and this one.
        ensures merged { OnOk result ((came : List Came) → Merged came self.old.performative
            → Merged (came ++ opening transfer ∷ []) self.new.performative) }
        ensures pieces { OnOk result (self.new.pieces ≡ self.old.pieces ++ payload ∷ []) }
        ensures bytes { OnOk result (held_bytes self.new ≡ held_bytes self.old ++ payload) }

        // The part of it that a caller needs most.
        ensures tag { OnOk result
            (self.new.performative.delivery_tag ≡ self.old.performative.delivery_tag) }
        ensures id { OnOk result
            (self.new.performative.delivery_id ≡ transfer.delivery_id) }
        ensures format { OnOk result (self.new.performative.message_format
            ≡ option_or self.old.performative.message_format transfer.message_format) }
        ensures silent { OnOk result (IsSilent transfer
            → self.new.performative ≡ resumed self.old.performative transfer) }

        ensures refused { AnswersThenOutOfMemory ReceiverTransferError.OutOfMemory
            result (resume_tests self.old transfer payload) }
        ensures left { OnErr result (self.new ≡ self.old) }
    {
        match self.resume(transfer, payload) {
            Ok(()) => Ok(()),
            Err(refused) => Err(refused.into_error()),
        }
    }

    // The same, except that a refused transfer is handed back with its payload.
    fn resume(&mut self, transfer: Transfer, payload: Payload) -> Result<(), RefusedTransfer>
        ensures merged { OnOk result ((came : List Came) → Merged came self.old.performative
            → Merged (came ++ opening transfer ∷ []) self.new.performative) }
        ensures pieces { OnOk result (self.new.pieces ≡ self.old.pieces ++ payload ∷ []) }
        ensures refused { AnswersThenOutOfMemory ReceiverTransferError.OutOfMemory
            (with_error result) (resume_tests self.old transfer payload) }
        ensures back { IfErr result (λ refused. AreReturned transfer payload refused) }
        ensures left { OnErr result (self.new ≡ self.old) }
    {
        if transfer.delivery_id.is_none() {
            let error = ReceiverTransferError::DeliveryIdIsNone; // asked of a first transfer (2.7.5)
            return Err(RefusedTransfer::new(error, transfer, payload));
        }
        if transfer.delivery_tag.is_none() {
            let error = ReceiverTransferError::DeliveryTagIsNone;
            return Err(RefusedTransfer::new(error, transfer, payload));
        }
        if self.is_another_than_of(&transfer) {
            let error = ReceiverTransferError::InconsistentFieldInMultiFrameDelivery;
            return Err(RefusedTransfer::new(error, transfer, payload));
        }
        self.add(transfer, payload, true)
    }

    /// As `try_add`, except that a refused transfer is handed back with its payload.
    pub fn add_or_return(
        &mut self,
        begins_delivery: bool,
        transfer: Transfer,
        payload: Payload,
    ) -> Result<(), RefusedTransfer>
        ensures merged { OnOk result ((came : List Came) → Merged came self.old.performative
            → Merged (came ++ record { opens = begins_delivery; transfer = transfer } ∷ [])
            self.new.performative) }
        ensures pieces { OnOk result (self.new.pieces ≡ self.old.pieces ++ payload ∷ []) }
        ensures refused { AnswersThenOutOfMemory ReceiverTransferError.OutOfMemory
            (with_error result) (add_tests begins_delivery self.old transfer payload) }
        ensures back { IfErr result (λ refused. AreReturned transfer payload refused) }
        ensures left { OnErr result (self.new ≡ self.old) }
    {
        if !begins_delivery {
            return self.append(transfer, payload);
        }
        self.resume(transfer, payload)
    }

    /// Adds any further transfer of the delivery, by whether it begins a delivery in this attachment: the one that does
    /// resumes this one (`try_resume`), each other continues it (`try_append`). `ReceiverLink::begins_delivery` says
    /// which it is. Neither the transfer's `resume` nor its id does, since a peer may repeat both on every transfer.
    ///
    /// Refused as these are, in their order, with nothing changed, and only then with `OutOfMemory`. Reads the payload
    /// once, and none of the bytes before it.
    pub fn try_add(
        &mut self,
        begins_delivery: bool,
        transfer: Transfer,
        payload: Payload,
    ) -> Result<(), ReceiverTransferError>
        // Whatever transfers arrived before, the fields are those of all of them and this one.
        ensures merged { OnOk result ((came : List Came) → Merged came self.old.performative
            → Merged (came ++ record { opens = begins_delivery; transfer = transfer } ∷ [])
            self.new.performative) }
        ensures pieces { OnOk result (self.new.pieces ≡ self.old.pieces ++ payload ∷ []) }
        ensures bytes { OnOk result (held_bytes self.new ≡ held_bytes self.old ++ payload) }

        // The part of it that a caller needs most.
        ensures tag { OnOk result
            (self.new.performative.delivery_tag ≡ self.old.performative.delivery_tag) }
        ensures id { OnOk result (self.new.performative.delivery_id
            ≡ (if begins_delivery then transfer.delivery_id else self.old.performative.delivery_id)) }
        ensures format { OnOk result (self.new.performative.message_format
            ≡ option_or self.old.performative.message_format transfer.message_format) }
        ensures silent { OnOk result (IsSilent transfer → self.new.performative
            ≡ (if begins_delivery then resumed self.old.performative transfer else self.old.performative)) }

        ensures refused { AnswersThenOutOfMemory ReceiverTransferError.OutOfMemory
            result (add_tests begins_delivery self.old transfer payload) }
        ensures left { OnErr result (self.new ≡ self.old) }
    {
        if begins_delivery {
            self.try_resume(transfer, payload)
        } else {
            self.try_append(transfer, payload)
        }
    }

    // Whether a transfer carries another tag or format than the delivery's.
    fn is_another_than_of(&self, transfer: &Transfer) -> bool
        ensures { result ≡ is_of_another self.now.performative transfer.now }
    {
        !self.is_same_delivery_as(transfer)
            || differs(self.performative.message_format, transfer.message_format)
    }

    /// Keeps the bytes up to this offset in this section, and drops the rest; position and size are those of
    /// the front that is kept. If the bytes have no such place nothing changes. Reads all bytes to find the
    /// place, then those that are kept, and copies none.
    ///
    /// Refused if it is out of memory, with nothing changed: for the part that is kept of the piece in which the
    /// front ends, which shares the piece's buffer; never if there is no such place.
    pub fn keep_buffer_till_section_number_and_offset( // up to a position (3.4.1)
        &mut self,
        number: u32,
        offset: u64,
    ) -> Result<(), AllocError>
        ensures prefix { OnOk result (MatchOption (place (held_bytes self.old) number offset)
            (self.new ≡ self.old) (λ place. KeepsFront self.old self.new place)) }
        ensures memory { OnErr result (IsSome (place (held_bytes self.old) number offset)) }
        ensures left { OnErr result (self.new ≡ self.old) }
    {
        let Some(place) = place_in(self.pieces.as_slice(), number, offset) else {
            return Ok(());
        };
        cut_pieces(&mut self.pieces, place)?;
        self.carry = carry_of(self.pieces.as_slice());
        Ok(())
    }
}
