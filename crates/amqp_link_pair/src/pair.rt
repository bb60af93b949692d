//! Two endpoints of a link, the wire between them, and what both keep through any interruptions.
//!
//! Payloads are sent by the sender, transfers arrive from the wire one by one, and the receiver holds of each
//! delivery exactly the bytes that arrived. A cut loses what is on the wire; when both endpoints are attached
//! again, each delivery is resumed from the position that the receiver reports. All deliveries are unsettled
//! and of format 0.
ghost use Rattle.std.specs.Prelude.{◌≡◌, ◌≢◌, ◌⊎◌, ◌<◌, ◌≤◌, ◌^◌, [], true, false, length, None, Some, IfErr, IfOk, IfSome, IsErrOf, IsSome, OnOk, OnErr, is_some, option_copied, if◌then◌else◌};
ghost use Rattle.amqp_link_types.specs.Entries.{entry_at};
ghost use Rattle.amqp_link_types.specs.Refusals.{AnswersExactly, AnswersOrOutOfMemory, AnswersThenOutOfMemory, refusal};
ghost use Rattle.amqp_link_sender.specs.Senders;
ghost use Rattle.amqp_link_ledger.specs.Fates.{HandsOut, IsRecorded, after};
ghost use Rattle.amqp_link_worlds.specs.Invariants.{IsWorld};
ghost use Rattle.amqp_link_worlds.specs.Worlds.{Good, held_at, is_together};
ghost use Rattle.amqp_link_worlds.specs.Steps.{Attaches, LeftByAttach, Grants, Sends, Arrives, AbortArrives, Cuts, Resumes, SendsAbort, PutsBack, DropsAbort, HandsOutDelivery, LeftByHandOut, Settles, WithdrawsDelivery};
ghost use Rattle.amqp_link_worlds.specs.Steps.{new_world, items_to_resume, is_halfway_at_other, attach_tests, grant_tests, send_tests, arrive_tests, cut_tests, next_tests, hand_out_tests, settle_tests, withdraw_tests};
ghost use Rattle.amqp_link_worlds.specs.Before.{before_decoding, before_tag};
ghost use Rattle.amqp_link_worlds.specs.PairRuns.{aborts_next};
ghost use Rattle.amqp_link_worlds.specs.Resumptions.{is_abort};
ghost use Rattle.amqp_link_pair.specs.Queues.{first_element};

mod runs;

use crate::deliveries::Deliveries;
use crate::ends::{Ends, Stage};
use crate::receiving::{is_aborted, take_off};
use crate::resuming::Resuming;
use crate::sending::{
    abort_frames, is_resumed, next_tag, put_back, resume, resumption_of, send_unsettled,
};
use crate::wire::Wire;
use amqp_link_core::incomplete_transfer::IncompleteTransfer;
use amqp_link_core::resumption::ResumingDelivery;
use amqp_link_endpoint::endpoint::LinkExt;
use amqp_link_ledger::ledger::OutcomeLedger;
use amqp_link_receiver::receiver_link::ReceiverLink;
use amqp_link_sender::sender_link::SenderLink;
use amqp_link_types::delivery::{Delivery, DeliveryInfo};
use amqp_link_types::types::{DeliveryNumber, DeliveryTag, FromBody, Payload, SequenceNo, Target};
use amqp_link_worlds::error::PairError;
use std::alloc::Global;
use std::marker::Model;

/// A delivery that was sent.
#[derive(Debug, PartialEq, Eq, Drop)]
pub struct Sent {
    /// The delivery's tag.
    pub tag: DeliveryTag,
    /// The number of its transfers.
    pub frames: usize,
}

/// A transfer that arrived.
#[derive(Debug, PartialEq, Eq, Drop)]
pub struct Arrived {
    /// The tag of its delivery.
    pub tag: DeliveryTag,
    /// The section in which what is held of the delivery ends, counted from 0.
    pub section_number: u32,
    /// The bytes that are held since that section's start.
    pub section_offset: u64,
    /// Whether the delivery's last transfer has arrived.
    pub whole: bool,
}

/// A delivery whose rest was sent.
#[derive(Debug, PartialEq, Eq, Drop)]
pub struct Resumed {
    /// The delivery's tag.
    pub tag: DeliveryTag,
    /// The number of transfers.
    pub frames: usize,
    /// Whether the delivery is resumed, since the receiver holds something of it. Otherwise it is sent again.
    pub resume: bool,
}

/// What a call returns of the next delivery: an answer of its own, or the tag of a delivery that is aborted, since it was
/// withdrawn.
#[derive(Debug, PartialEq, Eq, Drop)]
pub enum OrAborted<A> {
    /// The call's own answer.
    Answer(A),
    /// The delivery with this tag is aborted.
    Aborted(DeliveryTag),
}

/// Two endpoints of a link and the wire between them.
///
/// A contract sees its world: how far the endpoints are attached, both endpoints, how far each delivery has
/// come, the list of the deliveries to resume, and the transfers under way.
#[derive(Drop)]
pub struct Pair {
    alloc: Global,
    ends: Ends,
    deliveries: Deliveries,
    resuming: Resuming,
    wire: Wire,
}

impl Model for Pair {
    ghost use Rattle.amqp_link_worlds.specs.Worlds.{World};

    ghost Value = { World };

    ghost use Rattle.std.specs.Coded.{codes};
    ghost use Rattle.amqp_link_values.specs.contracts.fields.Fields as fields;

    ghost coded = { Prim.hlevel (codes, fields.the_row.coded) };

    ghost use Rattle.amqp_link_pair.specs.PairViews.{world_of, IsPair};

    ghost view = { world_of };

    ghost invariant = { IsPair };
}

#[tactic(auto, using(crate::proofs::StepLemmas::good_world))]
impl Pair {
    ghost use Rattle.amqp_link_pair.specs.Aborting.{ArrivesOrAborts, ResumesOrAborts};

    /// Two endpoints that are not attached, both with this delivery-count and no credit: the link "l" at
    /// handle 0.
    ///
    /// Refused only if it is out of memory.
    pub fn new(alloc: Global, initial_delivery_count: SequenceNo) -> Result<Pair, PairError>
        ensures done { IfOk result (λ pair. pair ≡ new_world initial_delivery_count) }
        ensures refused { AnswersOrOutOfMemory PairError.OutOfMemory result [] }
        ensures good { IfOk result (λ pair. Good pair) }
        ensures kept { IfOk result (λ pair. IsWorld pair) }
    {
        Ok(Pair {
            alloc,
            ends: Ends::new(alloc, initial_delivery_count)?,
            deliveries: Deliveries::new(alloc),
            resuming: Resuming::new(alloc),
            wire: Wire::new(alloc),
        })
    }

    /// Attaches both endpoints, for the first time or after a cut, at a frame limit in bytes (2.6.3), and
    /// returns how many deliveries are to be resumed or aborted. Each pending delivery of the sender is handed out for
    /// that, in the order of its unsettled map, and no registration is resolved. Those that were withdrawn, and of which
    /// the receiver holds something, follow in the order of the receiver's map: they are aborted.
    ///
    /// Refused in this order, with nothing changed: `AlreadyAttached`; `LimitChanged`, if an earlier call has
    /// begun at another limit; `LimitTooSmall`, if the limit is under 29, or if the attach of an endpoint
    /// with all its deliveries does not fit a frame. Those attaches are made to be measured, so `OutOfMemory`
    /// may come before this last test. If it is out of memory after the sender's attach was sent, the
    /// endpoints stay in the states that they have reached; the caller calls `attach` again with the same
    /// limit.
    ///
    /// Its cost grows with the number of pending deliveries, and with the bytes of the payloads in which a
    /// position that the receiver reports is looked for.
    pub fn attach(&mut self, limit: u32) -> Result<usize, PairError>
        ensures done { IfOk result (λ count. Attaches self.old limit count self.new) }
        ensures listed { OnOk result (self.new.resuming ≡ items_to_resume self.old) }
        ensures handed_out { OnOk result (self.new.ledger.records
            ≡ after (HandsOut self.new.resuming) self.old.ledger.records) }
        ensures refused { AnswersOrOutOfMemory PairError.OutOfMemory result (attach_tests self.old limit) }
        ensures memory { IsErrOf result PairError.OutOfMemory → (is_together self.old.phase ≡ false)
            × (is_halfway_at_other limit self.old.phase ≡ false) × (29 ≤ limit) }
        ensures left { LeftByAttach result self.old limit self.new }
        ensures good { Good self.new }
        ensures kept { IsWorld self.new }
    {
        self.may_attach(limit)?;
        let resuming = self.ends.attach(self.alloc, limit)?;
        let count = resuming.len();
        self.resuming = resuming;
        Ok(count)
    }

    // The tests of an attach at a limit.
    fn may_attach(&self, limit: u32) -> Result<(), PairError>
        ensures refused { AnswersOrOutOfMemory PairError.OutOfMemory result (attach_tests self.now limit) }
        ensures memory { IsErrOf result PairError.OutOfMemory → (is_together self.now.phase ≡ false)
            × (is_halfway_at_other limit self.now.phase ≡ false) × (29 ≤ limit) }
    {
        match self.ends.stage {
            Stage::Together => return Err(PairError::AlreadyAttached),
            Stage::Apart => {}
            _ if limit != self.ends.limit => return Err(PairError::LimitChanged),
            _ => {}
        }
        if limit < 29 || !self.ends.attaches_fit(limit)? {
            return Err(PairError::LimitTooSmall);
        }
        Ok(())
    }

    /// The receiver grants credit for this many deliveries, by a flow that arrives at once (2.6.7). Returns
    /// the sender's link-credit: the receiver's delivery-count + the granted credit - the sender's
    /// delivery-count.
    ///
    /// Refused with `NotAttached`, and nothing changed. Does not allocate.
    pub fn grant(&mut self, credit: u32) -> Result<u32, PairError>
        ensures done { IfOk result (λ own. Grants self.old credit own self.new) }
        ensures refused { AnswersExactly result (grant_tests self.old) }
        ensures left { OnErr result (self.new ≡ self.old) }
        ensures good { Good self.new }
        ensures kept { IsWorld self.new }
    {
        if !self.ends.are_together() {
            return Err(PairError::NotAttached);
        }
        Ok(self.ends.grant(credit))
    }

    /// Sends a payload as an unsettled delivery, for one credit, and returns its tag and the number of its
    /// transfers.
    ///
    /// Refused in this order, with nothing changed: `NotAttached`; `ResumeFirst`, while deliveries are still
    /// to be resumed; `PayloadTooLong` (2^32 bytes or more); `CreditMissing`; `TagPending`; `OutOfMemory`.
    ///
    /// Its cost grows with the number of its transfers, and not with the number of deliveries, of which each
    /// is found by a hash of its tag.
    pub fn send(&mut self, payload: &Payload) -> Result<Sent, PairError>
        ensures done { IfOk result (λ sent. Sends self.old payload.now sent.tag sent.frames self.new) }
        ensures refused { AnswersThenOutOfMemory PairError.OutOfMemory
            result (send_tests self.old payload.now) }
        ensures left { OnErr result (self.new ≡ self.old) }
        ensures good { Good self.new }
        ensures kept { IsWorld self.new }
    {
        match self.send_next(payload) {
            Err(PairError::OutOfMemory) => Err(self.pending_or_out_of_memory()),
            answer => answer,
        }
    }

    // Why a send that ran out of memory is refused: with `TagPending` if something is kept of its tag, which
    // `send_next` may not have tested, otherwise with `OutOfMemory`.
    fn pending_or_out_of_memory(&self) -> PairError
        ensures { result ≡ (if is_some (entry_at self.now.deliveries (Senders.next_tag self.now.ledger.link))
            then PairError.TagPending else PairError.OutOfMemory) }
    {
        let count = self.ends.ledger.flow_state().delivery_count();
        if self.deliveries.contains(count.to_be_bytes().as_slice()) {
            PairError::TagPending
        } else {
            PairError::OutOfMemory
        }
    }

    // The same send, except that it may be out of memory before the test of its tag.
    fn send_next(&mut self, payload: &Payload) -> Result<Sent, PairError>
        ensures done { IfOk result (λ sent. Sends self.old payload.now sent.tag sent.frames self.new) }
        ensures refused { AnswersOrOutOfMemory PairError.OutOfMemory
            result (send_tests self.old payload.now) }
        ensures memory { IsErrOf result PairError.OutOfMemory
            → refusal (before_tag self.old payload.now) ≡ None }
        ensures left { OnErr result (self.new ≡ self.old) }
        ensures good { Good self.new }
        ensures kept { IsWorld self.new }
    {
        self.may_send(payload)?;
        let tag = next_tag(self.alloc, &self.ends.ledger)?;
        // Room for all but the sender's entry, which is the last allocation.
        self.wire.reserve()?;
        // There is a delivery of the tag exactly if the sender has one pending or the receiver holds something of one.
        if !self.deliveries.add(&tag)? {
            return Err(PairError::TagPending);
        }
        let Ok((sent, frames)) = send_unsettled(&mut self.ends.ledger, payload) else {
            self.deliveries.take_back(&tag);
            return Err(PairError::OutOfMemory);
        };
        let count = frames.len();
        self.wire.push(tag, frames);
        Ok(Sent {
            tag: sent,
            frames: count,
        })
    }

    // The tests of a send that do not need its tag.
    fn may_send(&self, payload: &Payload) -> Result<(), PairError>
        ensures { AnswersExactly result (before_tag self.now payload.now) }
    {
        if !self.ends.are_together() {
            return Err(PairError::NotAttached);
        }
        if !self.resuming.is_empty() {
            return Err(PairError::ResumeFirst);
        }
        if payload.len() > u32::MAX as usize {
            return Err(PairError::PayloadTooLong);
        }
        if self.ends.ledger.flow_state().link_credit() == 0 {
            return Err(PairError::CreditMissing);
        }
        Ok(())
    }

    /// The next transfer arrives, with this delivery id if it is the first of its delivery in this
    /// attachment. Its payload is added to what the receiver holds of the delivery, and the receiver reports
    /// the position of that. Returns the delivery's tag, that position, and whether the last transfer has
    /// arrived. If the transfer aborts its delivery, what is held of it is dropped, the receiver's entry goes, and the
    /// tag is returned.
    ///
    /// Refused in this order, with nothing changed, so that the transfer stays on the wire: `NotAttached`,
    /// `WireEmpty`, `OutOfMemory`, which an aborted transfer is not refused with.
    ///
    /// Its cost grows with the bytes of the transfer, which are read for the position, and not with the number
    /// of deliveries.
    pub fn arrive(&mut self, id: DeliveryNumber) -> Result<OrAborted<Arrived>, PairError>
        ensures done { IfOk result (λ came. ArrivesOrAborts self.old id came self.new) }
        ensures refused { AnswersThenOutOfMemory PairError.OutOfMemory result (arrive_tests self.old) }
        ensures memory { IsErrOf result PairError.OutOfMemory → aborts_next self.old.wire ≡ false }
        ensures left { OnErr result (self.new ≡ self.old) }
        ensures good { Good self.new }
        ensures kept { IsWorld self.new }
    {
        if !self.ends.are_together() {
            return Err(PairError::NotAttached);
        }
        let Some((_, frame)) = self.wire.first() else {
            return Err(PairError::WireEmpty);
        };
        if is_aborted(frame) {
            return Ok(OrAborted::Aborted(self.abort_arrives()));
        }
        Ok(OrAborted::Answer(self.transfer_arrives(id)?))
    }

    // The next transfer, which aborts its delivery, arrives.
    fn abort_arrives(&mut self) -> DeliveryTag
        requires may { refusal (arrive_tests self.old) ≡ None }
        requires aborts { aborts_next self.old.wire ≡ true }
        ensures done { AbortArrives self.old result self.new }
        ensures good { Good self.new }
        ensures kept { IsWorld self.new }
    {
        let Some((tag, _)) = self.wire.first() else {
            unreachable!()
        };
        let Ok(tag) = tag.clone() else { unreachable!() };
        let Some(frame) = self.wire.take_first() else {
            unreachable!()
        };
        self.deliveries.remove(&tag);
        self.ends.receiver.on_aborted(&tag);
        take_off(&mut self.ends.receiver, frame);
        tag
    }

    // The next transfer, which carries a part of its delivery, arrives.
    fn transfer_arrives(&mut self, id: DeliveryNumber) -> Result<Arrived, PairError>
        requires may { refusal (arrive_tests self.old) ≡ None }
        requires carries { aborts_next self.old.wire ≡ false }
        ensures done { IfOk result (λ came. Arrives self.old id came.tag
            (came.section_number, came.section_offset) came.whole self.new) }
        ensures refused { IfErr result (λ error. error ≡ PairError.OutOfMemory) }
        ensures left { OnErr result (self.new ≡ self.old) }
        ensures good { Good self.new }
        ensures kept { IsWorld self.new }
    {
        let Some((tag, frame)) = self.wire.first() else {
            unreachable!()
        };
        let tag = tag.clone()?;
        let (section_number, section_offset, whole) = self
            .deliveries
            .receive(&mut self.ends.receiver, self.alloc, &tag, frame, id)?;
        // From here on nothing can fail.
        let Some(frame) = self.wire.take_first() else {
            unreachable!()
        };
        take_off(&mut self.ends.receiver, frame);
        Ok(Arrived {
            tag,
            section_number,
            section_offset,
            whole,
        })
    }

    /// Interrupts the link: both endpoints lose their session, and what is on the wire is lost. What the receiver
    /// holds and reports, the sender's unsettled map and each fate stay.
    ///
    /// Refused in this order, with nothing changed: `NotAttached`; `StillHandedOut`, while deliveries are
    /// still to be resumed. Does not allocate. Its cost grows with what is on the wire.
    pub fn cut(&mut self) -> Result<(), PairError>
        ensures done { OnOk result (Cuts self.old self.new) }
        ensures refused { AnswersExactly result (cut_tests self.old) }
        ensures left { OnErr result (self.new ≡ self.old) }
        ensures good { Good self.new }
        ensures kept { IsWorld self.new }
    {
        if !self.ends.are_together() {
            return Err(PairError::NotAttached);
        }
        if !self.resuming.is_empty() {
            return Err(PairError::StillHandedOut);
        }
        self.ends.cut();
        self.wire.clear();
        Ok(())
    }

    /// Sends those bytes of the next delivery to resume that the receiver does not hold, and registers its
    /// entry again, with the whole payload. Spends no credit. Of a delivery that was withdrawn the transfer that aborts it
    /// is sent, nothing is registered, and its tag is returned.
    ///
    /// Refused in this order, with nothing changed: `NotAttached`, `NothingToResume`, `OutOfMemory`.
    ///
    /// Its cost grows as that of `send`.
    pub fn resume_next(&mut self) -> Result<OrAborted<Resumed>, PairError>
        ensures done { IfOk result (λ resumed. ResumesOrAborts self.old resumed self.new) }
        ensures refused { AnswersThenOutOfMemory PairError.OutOfMemory result (next_tests self.old) }
        ensures left { OnErr result (self.new ≡ self.old) }
        ensures good { Good self.new }
        ensures kept { IsWorld self.new }
    {
        if !self.ends.are_together() {
            return Err(PairError::NotAttached);
        }
        let Some((_, next)) = self.resuming.first() else {
            return Err(PairError::NothingToResume);
        };
        if matches!(next, ResumingDelivery::Abort { .. }) {
            return Ok(OrAborted::Aborted(self.abort_next()?));
        }
        Ok(OrAborted::Answer(self.resume_listed()?))
    }

    // Sends the transfer that aborts the next delivery of the list, which was withdrawn.
    fn abort_next(&mut self) -> Result<DeliveryTag, PairError>
        requires may { refusal (next_tests self.old) ≡ None }
        requires aborts { IfSome (first_element self.old.resuming) (λ next. is_abort next.1 ≡ true) }
        ensures done { IfOk result (λ tag. SendsAbort self.old tag self.new) }
        ensures refused { IfErr result (λ error. error ≡ PairError.OutOfMemory) }
        ensures left { OnErr result (self.new ≡ self.old) }
        ensures good { Good self.new }
        ensures kept { IsWorld self.new }
    {
        let Some((tag, _)) = self.resuming.first() else {
            unreachable!()
        };
        self.wire.reserve()?;
        let on_wire = tag.clone()?;
        let frames = match abort_frames(self.alloc, self.ends.ledger.link(), &on_wire) {
            Ok(frames) => frames,
            Err(refused) => {
                drop(on_wire);
                return Err(refused.into());
            }
        };
        let (tag, next) = self.resuming.take_first();
        drop(next);
        self.wire.push(on_wire, frames);
        Ok(tag)
    }

    // Resumes the next delivery of the list, or sends it again.
    fn resume_listed(&mut self) -> Result<Resumed, PairError>
        requires may { refusal (next_tests self.old) ≡ None }
        requires resumes { IfSome (first_element self.old.resuming) (λ next. is_abort next.1 ≡ false) }
        ensures done { IfOk result (λ resumed.
            Resumes self.old resumed.tag resumed.frames resumed.resume self.new) }
        ensures refused { IfErr result (λ error. error ≡ PairError.OutOfMemory) }
        ensures left { OnErr result (self.new ≡ self.old) }
        ensures good { Good self.new }
        ensures kept { IsWorld self.new }
    {
        let Some((tag, next)) = self.resuming.first() else {
            unreachable!()
        };
        let is_resumed = is_resumed(next);
        self.wire.reserve()?;
        let on_wire = tag.clone()?;
        let resumption = resumption_of(self.ends.ledger.link(), tag, next)?;
        let (tag, next) = self.resuming.take_first();
        let frames = match resume(&mut self.ends.ledger, resumption, next) {
            Ok(frames) => frames,
            Err(next) => {
                drop(on_wire);
                self.resuming.put_first(tag, next);
                return Err(PairError::OutOfMemory);
            }
        };
        let count = frames.len();
        self.deliveries.mark(&tag, false);
        self.wire.push(on_wire, frames);
        Ok(Resumed {
            tag,
            frames: count,
            resume: is_resumed,
        })
    }

    /// Registers the entry of the next delivery to resume again without sending it, and returns its tag. The
    /// next attach hands it out again. Of a delivery that was withdrawn nothing is registered: the next attach lists it
    /// again.
    ///
    /// Refused in this order, with nothing changed: `NotAttached`, `NothingToResume`, `OutOfMemory`.
    ///
    /// Its cost does not grow with the number of deliveries.
    pub fn put_back_next(&mut self) -> Result<DeliveryTag, PairError>
        ensures done { IfOk result (λ tag. PutsBack self.old tag self.new ⊎ DropsAbort self.old tag self.new) }
        ensures refused { AnswersThenOutOfMemory PairError.OutOfMemory result (next_tests self.old) }
        ensures left { OnErr result (self.new ≡ self.old) }
        ensures good { Good self.new }
        ensures kept { IsWorld self.new }
    {
        if !self.ends.are_together() {
            return Err(PairError::NotAttached);
        }
        let Some((_, next)) = self.resuming.first() else {
            return Err(PairError::NothingToResume);
        };
        if matches!(next, ResumingDelivery::Abort { .. }) {
            return Ok(self.drop_abort());
        }
        self.put_back_listed()
    }

    // Takes the next delivery of the list, which was withdrawn, off it.
    fn drop_abort(&mut self) -> DeliveryTag
        requires may { refusal (next_tests self.old) ≡ None }
        requires aborts { IfSome (first_element self.old.resuming) (λ next. is_abort next.1 ≡ true) }
        ensures done { DropsAbort self.old result self.new }
        ensures good { Good self.new }
        ensures kept { IsWorld self.new }
    {
        let (tag, next) = self.resuming.take_first();
        drop(next);
        tag
    }

    // Registers the next delivery of the list again.
    fn put_back_listed(&mut self) -> Result<DeliveryTag, PairError>
        requires may { refusal (next_tests self.old) ≡ None }
        requires resumes { IfSome (first_element self.old.resuming) (λ next. is_abort next.1 ≡ false) }
        ensures done { IfOk result (λ tag. PutsBack self.old tag self.new) }
        ensures refused { IfErr result (λ error. error ≡ PairError.OutOfMemory) }
        ensures left { OnErr result (self.new ≡ self.old) }
        ensures good { Good self.new }
        ensures kept { IsWorld self.new }
    {
        let Some((tag, _)) = self.resuming.first() else {
            unreachable!()
        };
        let own = tag.clone()?;
        let (tag, next) = self.resuming.take_first();
        if let Err(next) = put_back(&mut self.ends.ledger, own, next) {
            self.resuming.put_first(tag, next);
            return Err(PairError::OutOfMemory);
        }
        self.deliveries.mark(&tag, true);
        Ok(tag)
    }

    /// The receiver hands out a complete delivery, with its message, for one credit. What it holds of the
    /// delivery stays until the delivery is settled.
    ///
    /// Refused in this order. With nothing changed: `NotAttached`; `UnknownTag`, if nothing is held of it, or it was
    /// withdrawn; `NotWhole`; `AlreadyHandedOut`; `TransferLimitExceeded`, if the receiver has no credit; `OutOfMemory`,
    /// which comes after all of these. With the credit spent: `Decode`, if the message cannot be decoded; the
    /// delivery counts as handed out then.
    ///
    /// Its cost grows with what the body reads of the bytes that are held, and not with the number of
    /// deliveries.
    pub fn hand_out<B: FromBody>(&mut self, tag: &DeliveryTag) -> Result<Delivery<B>, PairError>
        ensures done { IfOk result (λ delivery.
            HandsOutDelivery B.decoded self.old tag.now delivery self.new) }
        ensures refused { AnswersOrOutOfMemory PairError.OutOfMemory
            result (hand_out_tests B.decoded self.old tag.now) }
        ensures memory { IsErrOf result PairError.OutOfMemory
            → refusal (before_decoding self.old tag.now) ≡ None }
        ensures left { LeftByHandOut result self.old tag.now self.new }
        ensures good { Good self.new }
        ensures kept { IsWorld self.new }
    {
        if !self.ends.are_together() {
            return Err(PairError::NotAttached);
        }
        self.deliveries.hand_out(&mut self.ends.receiver, tag)
    }

    /// The receiver disposes of a delivery as accepted and settled, and that disposition arrives at the sender: the
    /// delivery leaves both unsettled maps, its registration is resolved as accepted, and what is held of it is
    /// dropped.
    ///
    /// Refused in this order, with nothing changed: `NotAttached`; `UnknownTag`, if nothing is held of it, or it was
    /// withdrawn; `NotWhole`; `ResumeFirst`, while any delivery is still to be resumed; `OnWire`, if a transfer of it is
    /// under way; `OutOfMemory`.
    ///
    /// Its cost grows with the number of pieces that are held of the delivery, which are dropped, and not with
    /// the number of deliveries.
    pub fn settle(&mut self, tag: &DeliveryTag) -> Result<(), PairError>
        ensures done { OnOk result (Settles self.old tag.now self.new) }
        ensures refused { AnswersThenOutOfMemory PairError.OutOfMemory result (settle_tests self.old tag.now) }
        ensures left { OnErr result (self.new ≡ self.old) }
        ensures good { Good self.new }
        ensures kept { IsWorld self.new }
    {
        let delivery_id = self.may_settle(tag)?;
        let info = DeliveryInfo::new(delivery_id, tag.clone()?, None);
        self.ends.settle(&info);
        drop(info);
        self.deliveries.remove(tag);
        Ok(())
    }

    // The tests of a settlement, and the delivery's id if none refuses.
    fn may_settle(&self, tag: &DeliveryTag) -> Result<DeliveryNumber, PairError>
        ensures { AnswersExactly result (settle_tests self.now tag.now) }
    {
        if !self.ends.are_together() {
            return Err(PairError::NotAttached);
        }
        let Some(kept) = self.deliveries.get(tag) else {
            return Err(PairError::UnknownTag);
        };
        let Some(held) = &kept.progress.held else {
            return Err(PairError::UnknownTag);
        };
        if kept.progress.withdrawn {
            return Err(PairError::UnknownTag);
        }
        if !kept.progress.whole {
            return Err(PairError::NotWhole);
        }
        if !self.resuming.is_empty() {
            return Err(PairError::ResumeFirst);
        }
        if kept.is_under_way {
            return Err(PairError::OnWire);
        }
        match held.performative().delivery_id {
            Some(id) => Ok(id),
            None => unreachable!(),
        }
    }

    /// Takes a pending delivery back between two attachments: its registration is withdrawn, and its entry leaves the
    /// sender's unsettled map. What the receiver holds of it stays: the next attach lists it to be aborted, until that has
    /// arrived.
    ///
    /// Refused in this order, with nothing changed: `AlreadyAttached`, also after an attach that was out of memory once it
    /// had begun; `UnknownTag`, if the delivery is not pending; `AlreadyWhole`, if its last transfer has arrived. Does not
    /// allocate, and its cost does not grow with the number of deliveries.
    pub fn withdraw(&mut self, tag: &DeliveryTag) -> Result<(), PairError>
        ensures done { OnOk result (WithdrawsDelivery self.old tag.now self.new) }
        ensures refused { AnswersExactly result (withdraw_tests self.old tag.now) }
        ensures left { OnErr result (self.new ≡ self.old) }
        ensures good { Good self.new }
        ensures kept { IsWorld self.new }
    {
        self.may_withdraw(tag)?;
        drop(self.ends.ledger.withdraw(tag));
        self.deliveries.withdraw_kept(tag);
        Ok(())
    }

    // The tests of a withdrawal.
    fn may_withdraw(&self, tag: &DeliveryTag) -> Result<(), PairError>
        ensures { AnswersExactly result (withdraw_tests self.now tag.now) }
    {
        if !self.ends.are_apart() {
            return Err(PairError::AlreadyAttached);
        }
        if !self.ends.ledger.unsettled_map().contains(tag) {
            return Err(PairError::UnknownTag);
        }
        if self.deliveries.is_whole(tag) {
            return Err(PairError::AlreadyWhole);
        }
        Ok(())
    }

    /// What the receiver holds of a delivery: none before its first transfer has arrived. May be called at
    /// any time. Does not allocate.
    pub fn held(&self, tag: &DeliveryTag) -> Option<&IncompleteTransfer>
        ensures held { option_copied result ≡ held_at self.now tag.now }
        ensures good { Good self.now }
        ensures kept { IsWorld self.now }
    {
        match &self.deliveries.get(tag)?.progress.held {
            Some(held) => Some(held),
            None => None,
        }
    }

    /// The sender, with the fate of each of its registrations.
    pub fn ledger(&self) -> &OutcomeLedger<Target>
        ensures ledger { result.now ≡ self.now.ledger }
        ensures recorded { IsRecorded self.now.ledger.link.unsettled self.now.ledger.records }
        ensures good { Good self.now }
        ensures kept { IsWorld self.now }
    {
        &self.ends.ledger
    }

    /// The receiver.
    pub fn receiver(&self) -> &ReceiverLink<Target>
        ensures receiver { result.now ≡ self.now.receiver }
        ensures good { Good self.now }
        ensures kept { IsWorld self.now }
    {
        &self.ends.receiver
    }

    /// Takes a pair apart: returns its endpoints, the sender without the fates of its registrations. What is
    /// held, on the wire or still to be resumed is dropped. Does not allocate.
    pub fn into_links(self) -> (SenderLink<Target>, ReceiverLink<Target>)
        ensures sender { result.0 ≡ self.ledger.link }
        ensures receiver { result.1 ≡ self.receiver }
    {
        let Pair {
            ends,
            deliveries,
            resuming,
            wire,
            ..
        } = self;
        drop(deliveries);
        drop(resuming);
        drop(wire);
        ends.into_links()
    }
}
