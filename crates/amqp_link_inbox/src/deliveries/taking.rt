//! A complete delivery is taken (2.6.12).
ghost use Rattle.std.specs.Prelude.{◌≡◌, ◌++◌, ◌<◌, [], Some, Err, IfOk, IsSomeAnd, MatchOption, MatchResult, drop, if◌then◌else◌};
ghost use Rattle.amqp_link_types.specs.Entries.{entry_at};
ghost use Rattle.amqp_link_core.specs.Held.{held_bytes};
ghost use Rattle.amqp_link_core.specs.Merging.{first};
ghost use Rattle.amqp_link_receiver.specs.Completing;
ghost use Rattle.amqp_link_receiver.specs.Completing.{IsDelivery};
ghost use Rattle.amqp_link_inbox.specs.KeptDeliveries.{stage_in};
ghost use Rattle.amqp_link_inbox.specs.Storing.{held_in, stage_at};
ghost use Rattle.amqp_link_inbox.specs.Taking.{AnswersTake, IsGivenBack, complete_in, complete_of, has_taken, settled_refusal, take_refusal, with_taken};
ghost use Rattle.amqp_link_inbox.specs.declared.kept.Contents.TheVariants as contents;

use crate::deliveries::Deliveries;
use crate::error::{TakeError, Undecoded};
use crate::kept::{Contents, is_settled};
use crate::settled::Settled;
use amqp_link_core::incomplete_transfer::IncompleteTransfer;
use amqp_link_endpoint::endpoint::LinkExt;
use amqp_link_endpoint::endpoint::target::LinkTarget;
use amqp_link_receiver::receiver_link::ReceiverLink;
use amqp_link_types::delivery::{Delivery, DeliveryInfo};
use amqp_link_types::types::{
    DecodeError, DeliveryTag, FromBody, MessageDecodeError, OutputHandle, Transfer,
};
use std::alloc::{AllocError, Global};
use std::mem;

// The info of the delivery with these fields.
fn info_of(alloc: Global, transfer: &Transfer) -> Result<DeliveryInfo, AllocError>
    ensures { IfOk result (λ info. info ≡ Completing.info_of transfer.now) }
{
    let mode = if is_settled(transfer) {
        None
    } else {
        transfer.rcv_settle_mode
    };
    let tag = match &transfer.delivery_tag {
        Some(tag) => tag.clone()?,
        None => DeliveryTag::copied(alloc, &[])?,
    };
    Ok(DeliveryInfo::new(transfer.delivery_id.unwrap_or(0), tag, mode))
}

// A complete delivery of the link with this handle, or why the body refuses its bytes.
fn deliver<T: LinkTarget, B: FromBody>(
    link: &ReceiverLink<T>,
    alloc: Global,
    handle: OutputHandle,
    held: &IncompleteTransfer,
) -> Result<Result<Delivery<B>, MessageDecodeError>, AllocError>
    requires { link.now.output_handle ≡ Some handle }
    ensures { IfOk result (λ answer. MatchResult answer
        (λ delivery. IsDelivery link.now held.now.performative (B.decoded (held_bytes held.now)) delivery)
        (λ refused. (refused.info ≡ Completing.info_of held.now.performative)
        × (B.decoded (held_bytes held.now) ≡ Err refused.source))) }
{
    let transfer = held.performative();
    let info = info_of(alloc, transfer)?;
    match B::decode_from_pieces(alloc, held.pieces()) {
        Ok(message) => {
            let delivery = Delivery::new(handle, info, transfer.message_format, message);
            Ok(Ok(delivery))
        }
        Err(DecodeError::OutOfMemory) => {
            drop(info);
            Err(AllocError)
        }
        Err(source) => Ok(Err(MessageDecodeError { source, info })),
    }
}

// What is given back of a delivery that the body refuses.
fn give_back(refused: MessageDecodeError, held: IncompleteTransfer) -> Undecoded
    ensures refused { result.refused ≡ refused }
    ensures pieces { result.pieces.items ≡ held.pieces }
{
    let (transfer, pieces, _, _) = held.into_parts();
    drop(transfer);
    Undecoded { refused, pieces }
}

impl Contents {
    // Takes what is held of a complete delivery.
    fn take_held<T: LinkTarget, B: FromBody>(
        &mut self,
        link: &ReceiverLink<T>,
        alloc: Global,
    ) -> Result<Delivery<B>, TakeError>
        ensures delivered { IfOk result (λ delivery. IsSomeAnd (complete_in self.old) (λ held.
            IsDelivery link.now held.performative (B.decoded (held_bytes held)) delivery)) }
        ensures undecoded { (undecoded : _) → result ≡ Err (TakeError.Undecoded undecoded)
            → IsSomeAnd (complete_in self.old) (λ held. IsGivenBack B.decoded held undecoded) }
        ensures refused { AnswersTake (take_refusal (Some (stage_in self.old)) link.now.output_handle) result }
        ensures after { self.new ≡ (if has_taken result then contents.Taken else self.old) }
    {
        let held = match self {
            Contents::Complete(held) => held,
            Contents::Begun(_) => return Err(TakeError::NotComplete),
            Contents::Taken => return Err(TakeError::AlreadyTaken),
        };
        let Some(handle) = link.output_handle() else {
            return Err(TakeError::NotAttached);
        };
        let answer = match deliver(link, alloc, handle, held) {
            Ok(answer) => answer,
            Err(AllocError) => return Err(TakeError::OutOfMemory),
        };
        let before = mem::replace(self, Contents::Taken);
        match (answer, before) {
            (Ok(delivery), before) => {
                drop(before);
                Ok(delivery)
            }
            (Err(refused), Contents::Complete(held)) => {
                Err(TakeError::Undecoded(give_back(refused, held)))
            }
            _ => unreachable!(),
        }
    }
}

// Puts a settled delivery back that was not taken. There has to be room for it.
fn put_back(settled: &mut Settled, contents: Contents)
    requires { 0 < settled.old.room }
    ensures { settled.new.list ≡ held_in contents ++ settled.old.list }
{
    match contents {
        Contents::Begun(held) | Contents::Complete(held) => settled.put_first(held),
        Contents::Taken => {}
    }
}

impl Deliveries {
    // Takes the delivery with this tag.
    pub(crate) fn take<T: LinkTarget, B: FromBody>(
        &mut self,
        link: &ReceiverLink<T>,
        alloc: Global,
        tag: &DeliveryTag,
    ) -> Result<Delivery<B>, TakeError>
        ensures delivered { IfOk result (λ delivery.
            IsSomeAnd (complete_of (entry_at self.old.entries tag.now)) (λ held.
            IsDelivery link.now held.performative (B.decoded (held_bytes held)) delivery)) }
        ensures undecoded { (undecoded : _) → result ≡ Err (TakeError.Undecoded undecoded)
            → IsSomeAnd (complete_of (entry_at self.old.entries tag.now)) (λ held. IsGivenBack B.decoded held undecoded) }
        ensures refused { AnswersTake (take_refusal (stage_at self.old.entries tag.now) link.now.output_handle) result }
        ensures entries { self.new.entries
            ≡ (if has_taken result then with_taken tag.now self.old.entries else self.old.entries) }
        ensures settled { self.new.settled ≡ self.old.settled }
    {
        let Some(kept) = self.entries.get_mut(tag) else {
            return Err(TakeError::UnknownTag);
        };
        kept.contents.take_held(link, alloc)
    }

    // Takes the first of those that are settled, if there is one.
    pub(crate) fn take_settled<T: LinkTarget, B: FromBody>(
        &mut self,
        link: &ReceiverLink<T>,
        alloc: Global,
    ) -> Result<Option<Delivery<B>>, TakeError>
        ensures delivered { IfOk result (λ taken. MatchOption taken (self.old.settled ≡ []) (λ delivery.
            IsSomeAnd (first self.old.settled) (λ held.
            IsDelivery link.now held.performative (B.decoded (held_bytes held)) delivery))) }
        ensures undecoded { (undecoded : _) → result ≡ Err (TakeError.Undecoded undecoded)
            → IsSomeAnd (first self.old.settled) (λ held. IsGivenBack B.decoded held undecoded) }
        ensures refused { AnswersTake (settled_refusal self.old.settled link.now.output_handle) result }
        ensures entries { self.new.entries ≡ self.old.entries }
        ensures settled { self.new.settled
            ≡ (if has_taken result then drop 1 self.old.settled else self.old.settled) }
    {
        let Some(held) = self.settled.take_first() else {
            return Ok(None);
        };
        let mut contents = Contents::Complete(held);
        let answer = contents.take_held(link, alloc);
        put_back(&mut self.settled, contents);
        match answer {
            Ok(delivery) => Ok(Some(delivery)),
            Err(error) => Err(error),
        }
    }
}
