//! A transfer is added to what is kept of its delivery (2.7.5).
ghost use Rattle.std.specs.Prelude.{◌≡◌, ◌++◌, ◌&&◌, ◌||◌, ◌<◌, false, true, not, None, Some};
ghost use Rattle.std.specs.Prelude.{ℕ, List, IfErr, IfOk, IfSome, IsSome, OnErr, OnOk, option_map, if◌then◌else◌};
ghost use Rattle.amqp_link_types.specs.Entries.{entry_at, without_entry};
ghost use Rattle.amqp_link_types.specs.Refusals.{AnswersOrOutOfMemory, AnswersThenOutOfMemory};
ghost use Rattle.amqp_link_types.specs.declared.types.transfer.Transfer.{Transfer as TheTransfer};
ghost use Rattle.amqp_link_core.specs.IncompleteRefusals.{AreReturned, start_tests, with_error};
ghost use Rattle.amqp_link_receiver.specs.ReceiverDeliveries;
ghost use Rattle.amqp_link_inbox.specs.Disposing.{settled_at};
ghost use Rattle.amqp_link_inbox.specs.Inboxes.{Handles, content_tests, counted};
ghost use Rattle.amqp_link_inbox.specs.KeptDeliveries;
ghost use Rattle.amqp_link_inbox.specs.KeptDeliveries.{IsAdded, addition_tests, first_kept};
ghost use Rattle.amqp_link_inbox.specs.Storing.{AddsTo, Begins, added_arrival, first_held, held_in, kept_tests, stated};

use crate::arrival::Arrival;
use crate::deliveries::Deliveries;
use crate::kept::{Contents, Kept, Stage, is_settled, refuse};
use crate::settled::Settled;
use amqp_link_core::incomplete_transfer::{IncompleteTransfer, RefusedTransfer};
use amqp_link_endpoint::endpoint::LinkExt;
use amqp_link_endpoint::endpoint::target::LinkTarget;
use amqp_link_receiver::receiver_link::ReceiverLink;
use amqp_link_types::types::{DeliveryTag, Payload, ReceiverTransferError, Transfer};
use indexmap::IndexMap;
use std::alloc::{AllocError, Global};

// What has begun with one transfer, handed back as that transfer.
fn take_apart(held: IncompleteTransfer) -> RefusedTransfer
    ensures error { result.error ≡ ReceiverTransferError.OutOfMemory }
    ensures back { (t : TheTransfer) (bytes : List ℕ) → held ≡ first_held t bytes → AreReturned t bytes result }
{
    let (transfer, mut pieces, _, _) = held.into_parts();
    let payload = match pieces.pop() {
        Some(payload) => payload,
        None => Payload::new(),
    };
    drop(pieces);
    refuse(ReceiverTransferError::OutOfMemory, transfer, payload)
}

// The link states up to where a delivery has arrived; a settled one has no entry. Does not allocate, since there is an
// entry.
fn state<T: LinkTarget>(link: &mut ReceiverLink<T>, tag: &DeliveryTag, kept: &Kept)
    requires { kept.now.settled ≡ false → IsSome (entry_at link.old.unsettled tag.now) }
    ensures { link.new ≡ stated tag.now kept.now link.old }
{
    if kept.settled {
        link.on_aborted(tag);
        return;
    }
    if let Contents::Begun(held) | Contents::Complete(held) = &kept.contents {
        let (number, offset) = held.position();
        let Ok(()) = link.on_incomplete_transfer(tag, number, offset) else {
            unreachable!()
        };
    }
}

// Counts a delivery that the sender has begun (2.6.7).
fn count_delivery<T: LinkTarget>(link: &mut ReceiverLink<T>)
    ensures { link.new ≡ counted link.old }
{
    let count = link.flow_state().delivery_count();
    link.move_delivery_count(count.wrapping_add(1));
}

// How far a delivery had come that was kept.
fn stage_of(kept: Option<Kept>) -> Option<Stage>
    ensures { result ≡ option_map KeptDeliveries.stage_of kept }
{
    let kept = kept?;
    let stage = kept.stage();
    drop(kept);
    Some(stage)
}

impl Deliveries {
    // Takes a transfer of the delivery with this tag, by whether it begins a delivery in this attachment.
    pub(crate) fn receive<T: LinkTarget>(
        &mut self,
        link: &mut ReceiverLink<T>,
        alloc: Global,
        tag: &DeliveryTag,
        begins: bool,
        transfer: Transfer,
        payload: Payload,
    ) -> Result<(Arrival, Option<Stage>), RefusedTransfer>
        requires { IfSome (entry_at self.old.entries tag.now) (λ kept.
            kept.settled ≡ false → IsSome (entry_at link.old.unsettled tag.now)) }
        ensures done { IfOk result (λ made. Handles transfer.aborted (begins && not transfer.resume) begins tag.now
            transfer payload self.old link.old made.0 made.1 self.new link.new) }
        ensures refused { AnswersOrOutOfMemory ReceiverTransferError.OutOfMemory (with_error result)
            (content_tests transfer.aborted (begins && not transfer.resume) begins
            (entry_at self.old.entries tag.now) transfer payload) }
        ensures back { IfErr result (λ refused. AreReturned transfer payload refused) }
        ensures left { OnErr result ((self.new ≡ self.old) × (link.new ≡ link.old)) }
    {
        if transfer.aborted {
            drop((transfer, payload));
            return Ok((Arrival::Aborted(self.forget(link, tag)), None));
        }
        if begins && !transfer.resume {
            let made = self.begin(link, alloc, tag, transfer, payload)?;
            count_delivery(link);
            return Ok(made);
        }
        let came = self.add(link, tag, begins, transfer, payload)?;
        Ok((came, None))
    }

    // Begins a delivery with its first transfer, in the place of what was kept of its tag. Which arrival it is, and how
    // far the one before had come. The entry at the link is the last allocation.
    pub(crate) fn begin<T: LinkTarget>(
        &mut self,
        link: &mut ReceiverLink<T>,
        alloc: Global,
        tag: &DeliveryTag,
        transfer: Transfer,
        payload: Payload,
    ) -> Result<(Arrival, Option<Stage>), RefusedTransfer>
        ensures done { IfOk result (λ made.
            Begins tag.now transfer payload self.old link.old made.0 made.1 self.new link.new) }
        ensures refused { AnswersOrOutOfMemory ReceiverTransferError.OutOfMemory
            (with_error result) (start_tests transfer payload) }
        ensures back { IfErr result (λ refused. AreReturned transfer payload refused) }
        ensures left { OnErr result ((self.new ≡ self.old) × (link.new ≡ link.old)) }
    {
        if is_settled(&transfer) && !transfer.more {
            return self.begin_settled(link, alloc, tag, transfer, payload);
        }
        let Ok(()) = self.entries.reserve(1) else {
            return Err(refuse(ReceiverTransferError::OutOfMemory, transfer, payload));
        };
        let Ok(key) = tag.clone() else {
            return Err(refuse(ReceiverTransferError::OutOfMemory, transfer, payload));
        };
        let more = transfer.more;
        let held = match begin_stated(link, alloc, tag, transfer, payload) {
            Ok(held) => held,
            Err(refused) => {
                drop(key);
                return Err(refused);
            }
        };
        let Ok(before) = self.entries.insert(key, Kept::of_first(held, more)) else {
            unreachable!()
        };
        let arrival = if more {
            Arrival::Begun
        } else {
            Arrival::Complete
        };
        Ok((arrival, stage_of(before)))
    }

    // The same of a delivery that is settled by its only transfer.
    fn begin_settled<T: LinkTarget>(
        &mut self,
        link: &mut ReceiverLink<T>,
        alloc: Global,
        tag: &DeliveryTag,
        transfer: Transfer,
        payload: Payload,
    ) -> Result<(Arrival, Option<Stage>), RefusedTransfer>
        requires settled { ReceiverDeliveries.is_settled transfer ≡ true }
        requires last { transfer.more ≡ false }
        ensures done { IfOk result (λ made.
            Begins tag.now transfer payload self.old link.old made.0 made.1 self.new link.new) }
        ensures refused { AnswersOrOutOfMemory ReceiverTransferError.OutOfMemory
            (with_error result) (start_tests transfer payload) }
        ensures back { IfErr result (λ refused. AreReturned transfer payload refused) }
        ensures left { OnErr result ((self.new ≡ self.old) × (link.new ≡ link.old)) }
    {
        let Ok(()) = self.settled.reserve() else {
            return Err(refuse(ReceiverTransferError::OutOfMemory, transfer, payload));
        };
        let held = IncompleteTransfer::start_or_return(alloc, transfer, payload)?;
        link.on_aborted(tag);
        let before = self.entries.swap_remove(tag);
        self.settled.push(held);
        Ok((Arrival::CompleteSettled, stage_of(before)))
    }

    // Adds a further transfer to what is kept of its tag, by whether it begins a delivery in this attachment.
    pub(crate) fn add<T: LinkTarget>(
        &mut self,
        link: &mut ReceiverLink<T>,
        tag: &DeliveryTag,
        begins: bool,
        transfer: Transfer,
        payload: Payload,
    ) -> Result<Arrival, RefusedTransfer>
        requires { IfSome (entry_at self.old.entries tag.now) (λ kept.
            kept.settled ≡ false → IsSome (entry_at link.old.unsettled tag.now)) }
        ensures done { IfOk result (λ came. AddsTo (entry_at self.old.entries tag.now) begins tag.now transfer payload
            self.old link.old came self.new link.new) }
        ensures refused { AnswersOrOutOfMemory ReceiverTransferError.OutOfMemory
            (with_error result) (kept_tests begins (entry_at self.old.entries tag.now) transfer payload) }
        ensures back { IfErr result (λ refused. AreReturned transfer payload refused) }
        ensures left { OnErr result ((self.new ≡ self.old) × (link.new ≡ link.old)) }
    {
        let Some(kept) = self.entries.get_mut(tag) else {
            drop((transfer, payload));
            return Ok(Arrival::Ignored);
        };
        if !is_last_of_settled(kept, &transfer) {
            return add_kept(link, tag, kept, begins, transfer, payload);
        }
        let Ok(()) = self.settled.reserve() else {
            return Err(refuse(ReceiverTransferError::OutOfMemory, transfer, payload));
        };
        let came = add_kept(link, tag, kept, begins, transfer, payload)?;
        leave(&mut self.entries, &mut self.settled, tag);
        Ok(came)
    }

    // The sender's disposition settles a delivery, or does not.
    pub(crate) fn settle_if(&mut self, settled: bool, tag: &DeliveryTag) -> Result<(), AllocError>
        ensures settled { OnOk result (self.new ≡ (if settled then settled_at tag.now self.old else self.old)) }
        ensures memory { OnErr result (settled ≡ true) }
        ensures left { OnErr result (self.new ≡ self.old) }
    {
        if settled { self.settle(tag) } else { Ok(()) }
    }

    // The sender's disposition settles a delivery: a complete one waits to be taken, and a taken one is kept no longer.
    fn settle(&mut self, tag: &DeliveryTag) -> Result<(), AllocError>
        ensures settled { OnOk result (self.new ≡ settled_at tag.now self.old) }
        ensures left { OnErr result (self.new ≡ self.old) }
    {
        let Some(kept) = self.entries.get_mut(tag) else {
            return Ok(());
        };
        if kept.has_begun() {
            kept.settled = true;
            return Ok(());
        }
        self.settled.reserve()?;
        leave(&mut self.entries, &mut self.settled, tag);
        Ok(())
    }
}

// A delivery that is settled, and of which no more is to come, is kept by its tag no longer. There has to be room for what is
// held of it.
fn leave(entries: &mut IndexMap<DeliveryTag, Kept>, settled: &mut Settled, tag: &DeliveryTag)
    requires known { IsSome (entry_at entries.old.entries tag.now) }
    requires room { 0 < settled.old.room }
    ensures entries { entries.new.entries ≡ without_entry entries.old.entries tag.now }
    ensures settled { IfSome (entry_at entries.old.entries tag.now) (λ kept.
        settled.new.list ≡ settled.old.list ++ held_in kept.contents) }
{
    let Some(kept) = entries.swap_remove(tag) else {
        unreachable!()
    };
    match kept.contents {
        Contents::Begun(held) | Contents::Complete(held) => settled.push(held),
        Contents::Taken => {}
    }
}

// Whether a transfer is the last one of a delivery that is settled, also by this transfer.
fn is_last_of_settled(kept: &Kept, transfer: &Transfer) -> bool
    ensures { result ≡ (not transfer.now.more && (kept.now.settled || ReceiverDeliveries.is_settled transfer.now)) }
{
    !transfer.more && (kept.settled || is_settled(transfer))
}

// Adds a further transfer to what is kept of its delivery, and has the link state it.
fn add_kept<T: LinkTarget>(
    link: &mut ReceiverLink<T>,
    tag: &DeliveryTag,
    kept: &mut Kept,
    begins: bool,
    transfer: Transfer,
    payload: Payload,
) -> Result<Arrival, RefusedTransfer>
    requires { kept.old.settled ≡ false → IsSome (entry_at link.old.unsettled tag.now) }
    ensures added { OnOk result (IsAdded begins transfer payload kept.old kept.new) }
    ensures link { OnOk result (link.new ≡ stated tag.now kept.new link.old) }
    ensures arrival { IfOk result (λ came.
        came ≡ added_arrival (KeptDeliveries.has_begun kept.old.contents) transfer.more kept.new.settled) }
    ensures refused { AnswersOrOutOfMemory ReceiverTransferError.OutOfMemory
        (with_error result) (addition_tests begins kept.old transfer payload) }
    ensures back { IfErr result (λ refused. AreReturned transfer payload refused) }
    ensures left { OnErr result ((kept.new ≡ kept.old) × (link.new ≡ link.old)) }
{
    let (more, had_begun) = (transfer.more, kept.has_begun());
    kept.add(begins, transfer, payload)?;
    state(link, tag, kept);
    Ok(arrival_of(had_begun, more, kept.settled))
}

// Which arrival a further transfer is.
fn arrival_of(had_begun: bool, more: bool, settled: bool) -> Arrival
    ensures { result ≡ added_arrival had_begun more settled }
{
    match (had_begun, more, settled) {
        (false, _, _) => Arrival::Known,
        (true, true, _) => Arrival::Continued,
        (true, false, true) => Arrival::CompleteSettled,
        (true, false, false) => Arrival::Complete,
    }
}

// Begins a delivery that is kept by its tag, and has the link state it. If it is refused, nothing changes.
fn begin_stated<T: LinkTarget>(
    link: &mut ReceiverLink<T>,
    alloc: Global,
    tag: &DeliveryTag,
    transfer: Transfer,
    payload: Payload,
) -> Result<IncompleteTransfer, RefusedTransfer>
    ensures held { IfOk result (λ held. held ≡ first_held transfer payload) }
    ensures link { OnOk result (link.new
        ≡ stated tag.now (first_kept (first_held transfer payload) transfer.more) link.old) }
    ensures refused { AnswersThenOutOfMemory ReceiverTransferError.OutOfMemory
        (with_error result) (start_tests transfer payload) }
    ensures back { IfErr result (λ refused. AreReturned transfer payload refused) }
    ensures left { OnErr result (link.new ≡ link.old) }
{
    let settled = is_settled(&transfer);
    let held = IncompleteTransfer::start_or_return(alloc, transfer, payload)?;
    if settled {
        link.on_aborted(tag);
        return Ok(held);
    }
    let (number, offset) = held.position();
    match link.on_incomplete_transfer(tag, number, offset) {
        Ok(()) => Ok(held),
        Err(_) => Err(take_apart(held)),
    }
}
