//! What an inbox keeps of a delivery (2.6.12).
ghost use Rattle.std.specs.Prelude.{◌≡◌, ◌||◌, [], not, IfErr, IfOk, OnErr, OnOk, Some};
ghost use Rattle.amqp_link_types.specs.Refusals.{AnswersExactly, AnswersOrOutOfMemory};
ghost use Rattle.amqp_link_core.specs.Held.{held_bytes};
ghost use Rattle.amqp_link_core.specs.IncompleteRefusals.{AreReturned, add_tests, with_error};
ghost use Rattle.amqp_link_receiver.specs.ReceiverDeliveries;
ghost use Rattle.amqp_link_inbox.specs.KeptDeliveries;
ghost use Rattle.amqp_link_inbox.specs.KeptDeliveries.{Grows, IsAdded, Joins, addition_tests, bytes_until, completed, empty_test, finished, first_kept, held_until, stage_of, tests_in};

use amqp_link_core::incomplete_transfer::{IncompleteTransfer, RefusedTransfer};
use amqp_link_types::types::{
    DeliveryNumber, DeliveryState, Payload, ReceiverSettleMode, ReceiverTransferError, Transfer,
};
use std::alloc::AllocError;
use std::mem;

/// How far a delivery has come.
#[derive(Clone, Copy, Debug, PartialEq, Eq)]
pub enum Stage {
    /// Its last transfer has not arrived.
    Begun,
    /// It is complete, and was not taken.
    Complete,
    /// It was taken.
    Taken,
}

/// What is held of a delivery.
#[derive(Debug, Drop)]
pub enum Contents {
    /// Its last transfer has not arrived.
    Begun(IncompleteTransfer),
    /// It is complete, and was not taken.
    Complete(IncompleteTransfer),
    /// It was taken: nothing of it is held.
    Taken,
}

/// What is kept of a delivery.
#[derive(Debug, Drop)]
pub struct Kept {
    /// What is held of it.
    pub contents: Contents,
    /// Whether its sender has settled it: then it has no entry in the unsettled map.
    pub settled: bool,
    /// Its id in the present attachment, if a transfer of it has arrived there.
    pub id: Option<DeliveryNumber>,
    /// The receiver settle mode of its first transfer.
    pub mode: Option<ReceiverSettleMode>,
}

// Whether a delivery is settled by its transfer; absent means false (2.7.5).
pub(crate) fn is_settled(transfer: &Transfer) -> bool
    ensures { result ≡ ReceiverDeliveries.is_settled transfer.now }
{
    transfer.settled.unwrap_or(false)
}

// A refusal that hands the transfer back.
pub(crate) fn refuse(
    error: ReceiverTransferError,
    transfer: Transfer,
    payload: Payload,
) -> RefusedTransfer
    ensures { result ≡ record { error = error; transfer = transfer; payload = payload } }
{
    RefusedTransfer {
        error,
        transfer,
        payload,
    }
}

// A further transfer of a delivery that is complete has no bytes.
fn take_empty(transfer: Transfer, payload: Payload) -> Result<(), RefusedTransfer>
    ensures empty { OnOk result (payload ≡ []) }
    ensures refused { AnswersExactly (with_error result) (empty_test payload) }
    ensures back { IfErr result (λ refused. AreReturned transfer payload refused) }
{
    if !payload.is_empty() {
        let error = ReceiverTransferError::InconsistentFieldInMultiFrameDelivery;
        return Err(refuse(error, transfer, payload));
    }
    drop((transfer, payload));
    Ok(())
}

// The position from which a transfer resumes its delivery, if it says so (3.4.1).
fn start_of(begins: bool, transfer: &Transfer) -> Option<(u32, u64)>
    ensures { result ≡ KeptDeliveries.start_of begins transfer.now }
{
    match &transfer.state {
        Some(
            DeliveryState::Received {
                section_number,
                section_offset,
            },
        ) if begins => Some((*section_number, *section_offset)),
        _ => None,
    }
}

// Adds a further transfer to what is held. One that resumes the delivery starts at the end of that, unless it names a position
// before: then what is held beyond that is dropped.
fn join(
    held: &mut IncompleteTransfer,
    begins: bool,
    transfer: Transfer,
    payload: Payload,
) -> Result<(), RefusedTransfer>
    ensures joined { OnOk result (Joins begins transfer payload held.old held.new) }
    ensures refused { AnswersOrOutOfMemory ReceiverTransferError.OutOfMemory (with_error result)
        (add_tests begins (held_until (KeptDeliveries.start_of begins transfer) held.old) transfer payload) }
    ensures back { IfErr result (λ refused. AreReturned transfer payload refused) }
    ensures left { OnErr result (held.new ≡ held.old) }
{
    match start_of(begins, &transfer) {
        Some(start) if start != held.position() => {
            join_at(held, start, begins, transfer, payload)
        }
        _ => held.add_or_return(begins, transfer, payload),
    }
}

// The same of one that names this position. What is kept is made apart, so that a refused one leaves all.
fn join_at(
    held: &mut IncompleteTransfer,
    start: (u32, u64),
    begins: bool,
    transfer: Transfer,
    payload: Payload,
) -> Result<(), RefusedTransfer>
    requires { Some start ≡ KeptDeliveries.start_of begins transfer }
    ensures joined { OnOk result (Joins begins transfer payload held.old held.new) }
    ensures refused { AnswersOrOutOfMemory ReceiverTransferError.OutOfMemory (with_error result)
        (add_tests begins (held_until (KeptDeliveries.start_of begins transfer) held.old) transfer payload) }
    ensures back { IfErr result (λ refused. AreReturned transfer payload refused) }
    ensures left { OnErr result (held.new ≡ held.old) }
{
    let Ok(mut front) = front_of(held, start) else {
        return Err(refuse(ReceiverTransferError::OutOfMemory, transfer, payload));
    };
    match front.add_or_return(begins, transfer, payload) {
        Ok(()) => {
            *held = front;
            Ok(())
        }
        Err(refused) => {
            drop(front);
            Err(refused)
        }
    }
}

// A copy of what is held before a position; the bytes are shared.
fn front_of(held: &IncompleteTransfer, start: (u32, u64)) -> Result<IncompleteTransfer, AllocError>
    ensures bytes { IfOk result (λ front. held_bytes front ≡ bytes_until (Some start) (held_bytes held.now)) }
    ensures performative { IfOk result (λ front. front.performative ≡ held.now.performative) }
{
    let mut front = held.clone()?;
    match front.keep_buffer_till_section_number_and_offset(start.0, start.1) {
        Ok(()) => Ok(front),
        Err(refused) => {
            drop(front);
            Err(refused)
        }
    }
}

impl Contents {
    // Adds a further transfer: to what has begun. Otherwise it is known already.
    fn add(
        &mut self,
        begins: bool,
        transfer: Transfer,
        payload: Payload,
    ) -> Result<(), RefusedTransfer>
        ensures grown { OnOk result (Grows begins transfer payload self.old self.new) }
        ensures refused { AnswersOrOutOfMemory ReceiverTransferError.OutOfMemory
            (with_error result) (tests_in begins self.old transfer payload) }
        ensures back { IfErr result (λ refused. AreReturned transfer payload refused) }
        ensures left { OnErr result (self.new ≡ self.old) }
    {
        match self {
            Contents::Begun(held) => join(held, begins, transfer, payload),
            _ => take_empty(transfer, payload),
        }
    }

    // The last transfer of the delivery has arrived.
    fn complete(&mut self)
        ensures { self.new ≡ completed self.old }
    {
        *self = match mem::replace(self, Contents::Taken) {
            Contents::Begun(held) => Contents::Complete(held),
            contents => contents,
        };
    }

    // A transfer has arrived of which more is to come or not.
    fn finish(&mut self, more: bool)
        ensures { self.new ≡ finished more self.old }
    {
        if !more {
            self.complete();
        }
    }
}

impl Kept {
    // What has begun with the transfer that is held, of which more is to come or not.
    pub(crate) fn of_first(held: IncompleteTransfer, more: bool) -> Kept
        ensures { result ≡ first_kept held more }
    {
        let first = held.performative();
        let (settled, id, mode) = (is_settled(first), first.delivery_id, first.rcv_settle_mode);
        let contents = if more {
            Contents::Begun(held)
        } else {
            Contents::Complete(held)
        };
        Kept {
            contents,
            settled,
            id,
            mode,
        }
    }

    // Whether its last transfer has not arrived.
    pub(crate) fn has_begun(&self) -> bool
        ensures { result ≡ KeptDeliveries.has_begun self.now.contents }
    {
        matches!(self.contents, Contents::Begun(_))
    }

    /// How far the delivery has come.
    pub fn stage(&self) -> Stage
        ensures { result ≡ stage_of self.now }
    {
        match self.contents {
            Contents::Begun(_) => Stage::Begun,
            Contents::Complete(_) => Stage::Complete,
            Contents::Taken => Stage::Taken,
        }
    }

    // Adds a further transfer of the delivery, by whether it begins a delivery in this attachment.
    pub(crate) fn add(
        &mut self,
        begins: bool,
        transfer: Transfer,
        payload: Payload,
    ) -> Result<(), RefusedTransfer>
        ensures added { OnOk result (IsAdded begins transfer payload self.old self.new) }
        ensures refused { AnswersOrOutOfMemory ReceiverTransferError.OutOfMemory
            (with_error result) (addition_tests begins self.old transfer payload) }
        ensures back { IfErr result (λ refused. AreReturned transfer payload refused) }
        ensures left { OnErr result (self.new ≡ self.old) }
    {
        let (id, more, settles) = (transfer.delivery_id, transfer.more, is_settled(&transfer));
        self.contents.add(begins, transfer, payload)?;
        self.contents.finish(more);
        self.settled = self.settled || settles;
        self.id = if begins { id } else { self.id };
        Ok(())
    }
}
