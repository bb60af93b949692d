//! The sender of a link (2.6).
//!
//! A new link is attached first, then the receiver grants credit, then payloads are sent, one credit for each
//! delivery. The caller sends the frames that a call returns in their order.
ghost use Rattle.std.specs.Prelude.{◌≡◌, ◌<◌, length, true, None, Some, IfOk, IsSomeAnd, OnOk, OnErr, MatchOption, is_none};
ghost use Rattle.amqp_link_split.specs.Room.{has_room};
ghost use Rattle.amqp_link_split.specs.Room;
ghost use Rattle.amqp_link_split.specs.Fitting.{IsFitting};

mod attach;
mod disposing;
mod flow;
pub mod incoming;
mod resending;
mod tagged;
mod waits;

use amqp_link_endpoint::endpoint::either::{Access, EitherEnd};
use amqp_link_endpoint::endpoint::target::LinkTarget;
use amqp_link_endpoint::link_inner::LinkInner;
use amqp_link_endpoint::link_parts::LinkParts;
use amqp_link_split::room::{payload_limit, payload_limit_with_tag};
use amqp_link_split::split::frames;
use amqp_link_state::role::SenderMarker;
use amqp_link_types::delivery::{DeliveryOutcome, Settlement, UnsettledMessage};
use amqp_link_types::frame::LinkFrame;
use amqp_link_types::types::unsettled_map::UnsettledMap;
use amqp_link_types::types::{
    DeliveryState, DeliveryTag, InputHandle, LinkStateError, MessageFormat, OutputHandle, Payload,
    SenderSettleMode, SessionStopReason, Transfer,
};
pub use incoming::SenderAttachExchange;
use std::alloc::{AllocError, Global};
use std::marker::Model;

/// What is pending at a sender when a payload is to be sent. It is handled before the send.
#[derive(Debug, PartialEq, Eq, Drop)]
pub enum Waiting {
    /// Nothing is pending.
    Nothing,
    /// A frame has arrived. While a payload waits for credit, only a detach is expected.
    Frame(LinkFrame),
    /// The session has stopped, for this reason if one is known.
    Stopped(Option<SessionStopReason>),
}

/// What a send of a payload returns.
#[derive(Debug, PartialEq, Eq, Drop)]
pub enum Sending {
    /// The delivery is sent in these frames, at least one.
    Sent {
        /// The delivery's tag, and whether it awaits its outcome.
        settlement: Settlement,
        /// The frames in the order in which to send them.
        frames: Vec<LinkFrame>,
    },
    /// The receiver has granted no more credit. Nothing has changed: try again after its next flow.
    CreditMissing,
}

/// What `on_incoming_disposition` returns: whether to reply, and the delivery that was resolved.
#[derive(Debug, PartialEq, Eq, Drop)]
pub struct DispositionAnswer {
    /// Whether the sender has to answer with a disposition that settles the delivery: `dispose` makes it.
    pub echo: bool,
    /// The delivery that the disposition has resolved, by its tag, and its outcome.
    pub outcome: Option<(DeliveryTag, DeliveryOutcome)>,
}

/// The sender of a link.
///
/// How a link is built, attached, detached and looked at is the same at either role: `Link` says it. The calls of a
/// sender by kind, and what each asks its caller to do next:
///
/// - **Attach**: `on_incoming_attach` returns how to continue with the unsettled deliveries. `Complete`: nothing to do.
///   `Resume`: for each listed delivery, in order, do what its kind asks for: `send_unsettled_transfer`
///   resumes it, with the transfer of `generate_resuming_transfer_performative`; `put_back` keeps it for a
///   later attach. `IncompleteUnsettled`: the same, and then the link is attached anew until an exchange is
///   complete (`Link`, **Detach**). The list has every own delivery then, too; one that the receiver's incomplete
///   attach does not state is listed as `Resend`, though the receiver may hold a part of it: `put_back` keeps
///   it.
/// - **Take in**: `on_incoming_flow` takes the receiver's flow, and returns the flow to send back, if there
///   is one. `on_incoming_disposition` may resolve a delivery; if `echo` is set, send the disposition of
///   `dispose`. `on_incoming_detach` returns the outcome of each pending delivery too, if the link is closed.
///   `on_incoming_transfer` refuses every transfer.
/// - **Send**: `send_payload` sends a new delivery for one credit, and `send_payload_with_tag` one under a tag of the
///   caller's. `CreditMissing`: wait for a flow, and call again. `send_payload_with_transfer` and `send_transfer_without_modifying_unsettled_map` send with a
///   transfer that the caller has, as `generate_non_resuming_transfer_performative` makes it.
///   `can_send_payload`, `can_send_with_transfer` and `can_send_unsettled` say whether a send would be refused.
/// - **Settle**: `dispose` and `batch_dispose` make dispositions; `withdraw` removes a delivery from the
///   unsettled map before it has an outcome, and `send_abort` has the receiver forget what it holds of one;
///   `fail_pending_unsettled` resolves all, as a detach that closes the link does. `is_settled_on_send` says
///   whether a transfer is sent settled.
///
/// A contract sees its state, name, modes, termini, limits, capabilities, handles, flow state, the list of its
/// unsettled deliveries, and whether it verifies the peer's termini.
#[derive(Drop)]
pub struct SenderLink<T: LinkTarget> {
    alloc: Global,
    inner: LinkInner<SenderMarker, T>,
    unsettled: UnsettledMap<UnsettledMessage>,
}

impl<T: LinkTarget> Model for SenderLink<T> {
    ghost use Rattle.std.specs.Coded.{codes};
    ghost use Rattle.amqp_link_values.specs.contracts.fields.Fields as fields;
    ghost use Rattle.amqp_link_endpoint.specs.Links.{endpoint_of};
    ghost use Rattle.amqp_link_sender.specs.Senders.{Sender};

    ghost Value = { Sender T };

    ghost coded = { Prim.hlevel (codes, fields.the_row.coded) };

    ghost view = { λ link. endpoint_of link.inner link.unsettled tt };
}

impl<T: LinkTarget> EitherEnd for SenderLink<T> {
    ghost use Rattle.std.specs.Prelude.{refl};
    ghost use Rattle.amqp_link_endpoint.specs.Links.{inner_of, with_inner};

    type Marker = SenderMarker;

    type Target = T;

    ghost inner = { inner_of };

    ghost with_inner = { with_inner };

    ghost kept = { λ link. link.unsettled };

    ghost at_rest = { λ link. link };

    ghost apart = { λ link i. (refl, refl, refl, refl) };

    fn inner(&self, _: Access) -> &LinkInner<SenderMarker, T> {
        &self.inner
    }

    fn inner_mut(&mut self, _: Access) -> &mut LinkInner<SenderMarker, T> {
        &mut self.inner
    }

    fn kept(&self, _: Access) -> &UnsettledMap<UnsettledMessage> {
        &self.unsettled
    }

    fn rest(&mut self, _: Access) {}
}

impl<T: LinkTarget> SenderLink<T> {
    ghost use Rattle.amqp_link_sender.specs.Senders.{SendsOrLacksCredit, SendsTaggedOrLacksCredit, SendsTransfer, IsSent, SendAnswersThenOutOfMemory};
    ghost use Rattle.amqp_link_types.specs.Refusals.{AnswersExactly, AnswersThenOutOfMemory};
    ghost use Rattle.amqp_link_sender.specs.Senders.{sender_of_parts, delivery_of, next_tag, new_transfer, new_entry, settled_on_send, SendsFitting, SendsTaggedFitting};
    ghost use Rattle.amqp_link_types.specs.Entries.{with_entry};
    ghost use Rattle.amqp_link_sender.specs.Waits.{waiting_error, after_waiting};
    ghost use Rattle.amqp_link_sender.specs.Senders.{IsSendable, transfer_tests, tagged_tests, tagged_transfer_tests, delivery_tests, payload_tests, tagged_payload_tests, untagged};

    /// A link that is not attached, without handles and unsettled deliveries. Does not allocate.
    pub fn new(alloc: Global, parts: LinkParts<T>) -> SenderLink<T>
        ensures { result ≡ sender_of_parts parts }
    {
        SenderLink {
            alloc,
            inner: LinkInner::new(parts),
            unsettled: UnsettledMap::new(alloc),
        }
    }

    /// Whether a transfer is sent settled, so that its delivery awaits no outcome: by its `settled` flag if
    /// it has one, otherwise by the link's sender settle mode (2.7.5).
    pub fn is_settled_on_send(&self, transfer: &Transfer) -> bool
        ensures { result ≡ settled_on_send self.now transfer.now }
    {
        let by_mode = matches!(self.inner.snd_settle_mode, SenderSettleMode::Settled);
        transfer.settled.unwrap_or(by_mode)
    }

    /// The transfer of a new delivery, which resumes nothing (2.7.5). It is settled in mode `Settled` and
    /// unsettled in mode `Unsettled`; in mode `Mixed` the given flag decides, and without one it is
    /// unsettled.
    ///
    /// Refused with `IllegalState` if there is no output handle. Does not allocate.
    pub fn generate_non_resuming_transfer_performative(
        &self,
        delivery_tag: DeliveryTag,
        message_format: MessageFormat,
        settled: Option<bool>,
        state: Option<DeliveryState>,
        batchable: bool,
    ) -> Result<Transfer, LinkStateError>
        ensures { MatchOption self.now.output_handle
            (result ≡ Err LinkStateError.IllegalState)
            (λ handle. result ≡ Ok (new_transfer self.now handle delivery_tag
            (delivery_of message_format settled state batchable))) }
    {
        let Some(handle) = self.inner.output_handle else {
            drop((delivery_tag, state));
            return Err(LinkStateError::IllegalState);
        };
        let mut transfer = self.untagged_transfer(
            handle,
            message_format,
            settled,
            state,
            batchable,
        );
        transfer.delivery_tag = Some(delivery_tag);
        Ok(transfer)
    }

    // The transfer of a new delivery, without its tag.
    fn untagged_transfer(
        &self,
        handle: OutputHandle,
        message_format: MessageFormat,
        settled: Option<bool>,
        state: Option<DeliveryState>,
        batchable: bool,
    ) -> Transfer
        ensures { result ≡ untagged self.now handle (delivery_of message_format settled state batchable) }
    {
        let settled = match self.inner.snd_settle_mode {
            SenderSettleMode::Settled => true,
            SenderSettleMode::Unsettled => false,
            SenderSettleMode::Mixed => settled.unwrap_or(false), // unset means false (2.7.5)
        };
        Transfer {
            handle: handle.into(),
            delivery_id: None,
            delivery_tag: None,
            message_format: Some(message_format),
            settled: Some(settled),
            more: false,
            rcv_settle_mode: None,
            state,
            resume: false,
            aborted: false,
            batchable,
        }
    }

    /// Sends a payload as a new delivery, for one credit, in frames that fit the frame limit (2.7.5). It is cut into
    /// the fewest pieces of the payload limit, which is the room that a frame has beside the longest transfer of the
    /// delivery: a first transfer that would have more room by itself is not filled up. The pieces share the
    /// payload's bytes. The delivery-tag is the delivery-count before the send, as four bytes. Whether the delivery
    /// is settled is decided as in `generate_non_resuming_transfer_performative`. An unsettled delivery is registered
    /// with its whole payload until it is settled.
    ///
    /// Whatever is pending is handled before the send. A detach is recorded as by
    /// `apply_remote_detach_outcome`, which moves the state and releases the output handle; the send then
    /// returns `RemoteDetached`, `RemoteClosed` or that call's error (`IllegalState`, with nothing changed,
    /// if there is no transition from this state). Any other frame, or a session stop without a reason,
    /// returns `ExpectImmediateDetach`; a stop with a reason returns `SessionStopped`.
    ///
    /// If nothing is pending, these are tested in this order, and nothing has changed if one of them holds:
    /// `IllegalState` without output handle, then without input handle; `CreditMissing`, which is an answer
    /// and not an error; `TagPending` for an unsettled delivery; `NoRoom`; `OutOfMemory`, only if none of
    /// these holds.
    ///
    /// Its cost grows with the number of frames, and not with the number of pending deliveries: the tag of an
    /// unsettled one is looked up by a hash, once for the test and once as it is registered.
    pub fn send_payload(
        &mut self,
        waiting: Waiting,
        payload: &Payload,
        message_format: MessageFormat,
        settled: Option<bool>,
        state: Option<DeliveryState>,
        batchable: bool,
    ) -> Result<Sending, LinkStateError>
        ensures sent { IfOk result (λ sending. SendsOrLacksCredit self.old
            (delivery_of message_format settled state batchable) payload.now sending self.new) }
        ensures fits { IfOk result (λ sending. SendsFitting self.old
            (delivery_of message_format settled state batchable) payload.now sending) }
        ensures refused { MatchOption (waiting_error self.old.local_state waiting)
            (SendAnswersThenOutOfMemory result (payload_tests self.old
            (delivery_of message_format settled state batchable) payload.now))
            (λ error. result ≡ Err error) }
        ensures left { OnErr result (self.new ≡ after_waiting self.old waiting) }
    {
        match self.take_waiting(waiting) {
            None => self.send_new(payload, message_format, settled, state, batchable),
            Some(error) => {
                drop(state);
                Err(error)
            }
        }
    }

    // The same if nothing is pending.
    fn send_new(
        &mut self,
        payload: &Payload,
        message_format: MessageFormat,
        settled: Option<bool>,
        state: Option<DeliveryState>,
        batchable: bool,
    ) -> Result<Sending, LinkStateError>
        ensures sent { IfOk result (λ sending. SendsOrLacksCredit self.old
            (delivery_of message_format settled state batchable) payload.now sending self.new) }
        ensures fits { IfOk result (λ sending. SendsFitting self.old
            (delivery_of message_format settled state batchable) payload.now sending) }
        ensures refused { SendAnswersThenOutOfMemory result (payload_tests self.old
            (delivery_of message_format settled state batchable) payload.now) }
        ensures left { OnErr result (self.new ≡ self.old) }
    {
        let count = self.inner.flow_state.delivery_count().to_be_bytes();
        self.send_under(&count, payload, message_format, settled, state, batchable)
    }

    // Sends a payload as a new delivery with this tag, for one credit, if nothing is pending.
    fn send_under(
        &mut self,
        tag: &[u8],
        payload: &Payload,
        message_format: MessageFormat,
        settled: Option<bool>,
        state: Option<DeliveryState>,
        batchable: bool,
    ) -> Result<Sending, LinkStateError>
        ensures sent { IfOk result (λ sending. SendsTaggedOrLacksCredit self.old tag.now
            (delivery_of message_format settled state batchable) payload.now sending self.new) }
        ensures fits { IfOk result (λ sending. SendsTaggedFitting self.old tag.now
            (delivery_of message_format settled state batchable) payload.now sending) }
        ensures refused { SendAnswersThenOutOfMemory result (tagged_payload_tests self.old tag.now
            (delivery_of message_format settled state batchable) payload.now) }
        ensures left { OnErr result (self.new ≡ self.old) }
    {
        let Some(handle) = self.inner.output_handle else {
            drop(state);
            return Err(LinkStateError::IllegalState);
        };
        let Some(input_handle) = self.inner.input_handle else {
            drop(state);
            return Err(LinkStateError::IllegalState);
        };
        if self.inner.flow_state.link_credit() == 0 {
            drop(state);
            return Ok(Sending::CreditMissing);
        }
        let transfer = self.untagged_transfer(handle, message_format, settled, state, batchable);
        let (settlement, frames) = self.send_untagged(
            input_handle,
            transfer,
            tag,
            message_format,
            payload,
        )?;
        // All tests and all allocations are done.
        self.inner.flow_state.spend_one();
        Ok(Sending::Sent { settlement, frames })
    }

    /// Whether `send_payload` would send this payload now if nothing is pending; false if there is no credit.
    /// Its refusals are the same, in the same order, without `OutOfMemory`. Does not allocate, and changes
    /// nothing.
    pub fn can_send_payload(
        &self,
        payload: &Payload,
        message_format: MessageFormat,
        settled: Option<bool>,
        state: Option<DeliveryState>,
        batchable: bool,
    ) -> Result<bool, LinkStateError>
        ensures { IsSendable result (payload_tests self.now
            (delivery_of message_format settled state batchable) payload.now) }
    {
        let count = self.inner.flow_state.delivery_count().to_be_bytes();
        self.can_send_under(&count, payload, message_format, settled, state, batchable)
    }

    // The same under this tag.
    fn can_send_under(
        &self,
        tag: &[u8],
        payload: &Payload,
        message_format: MessageFormat,
        settled: Option<bool>,
        state: Option<DeliveryState>,
        batchable: bool,
    ) -> Result<bool, LinkStateError>
        ensures { IsSendable result (tagged_payload_tests self.now tag.now
            (delivery_of message_format settled state batchable) payload.now) }
    {
        let Some(handle) = self.inner.output_handle else {
            drop(state);
            return Err(LinkStateError::IllegalState);
        };
        if self.inner.input_handle.is_none() {
            drop(state);
            return Err(LinkStateError::IllegalState);
        }
        if self.inner.flow_state.link_credit() == 0 {
            drop(state);
            return Ok(false);
        }
        let mut next = self.untagged_transfer(handle, message_format, settled, state, batchable);
        let limit = self.limit_of_next(&mut next, tag, payload);
        drop(next);
        limit?;
        Ok(true)
    }

    // Sends a new delivery under this tag with this transfer, which has no tag yet: its tag is made once no test
    // refuses the delivery.
    fn send_untagged(
        &mut self,
        input_handle: InputHandle,
        mut transfer: Transfer,
        tag: &[u8],
        message_format: MessageFormat,
        payload: &Payload,
    ) -> Result<(Settlement, Vec<LinkFrame>), LinkStateError>
        requires { self.old.input_handle ≡ Some input_handle }
        ensures sent { IfOk result (λ sent. SendsTransfer self.old message_format
            (record transfer { delivery_tag = Some tag.now }) tag.now payload.now sent.0 sent.1.items self.new) }
        ensures fits { IfOk result (λ sent.
            IsFitting (record transfer { delivery_tag = Some tag.now })
            self.old.max_frame_size payload.now sent.1.items) }
        ensures refused { AnswersThenOutOfMemory LinkStateError.OutOfMemory result (delivery_tests self.old
            (record transfer { delivery_tag = Some tag.now }) tag.now payload.now) }
        ensures left { OnErr result (self.new ≡ self.old) }
    {
        let limit = match self.limit_of_next(&mut transfer, tag, payload) {
            Ok(limit) => limit,
            Err(refused) => {
                drop(transfer);
                return Err(refused);
            }
        };
        let (tag, named) = match tags_of(self.alloc, tag) {
            Ok(tags) => tags,
            Err(refused) => {
                drop(transfer);
                return Err(refused.into());
            }
        };
        transfer.delivery_tag = Some(named);
        Ok(self.begin(input_handle, transfer, tag, message_format, payload, limit)?)
    }

    // The payload limit of the delivery with this tag, whose transfer has no tag yet, if no test refuses it.
    // The transfer stays as it is.
    fn limit_of_next(
        &self,
        transfer: &mut Transfer,
        tag: &[u8],
        payload: &Payload,
    ) -> Result<usize, LinkStateError>
        ensures limit { IfOk result (λ limit. limit ≡ Room.payload_limit
            (record transfer.old { delivery_tag = Some tag.now }) self.now.max_frame_size) }
        ensures some { IfOk result (λ limit. 0 < length payload.now → 0 < limit) }
        ensures refused { AnswersExactly result (delivery_tests self.now
            (record transfer.old { delivery_tag = Some tag.now }) tag.now payload.now) }
        ensures same { transfer.new ≡ transfer.old }
    {
        if !self.is_settled_on_send(transfer) && self.unsettled.contains_bytes(tag) {
            return Err(LinkStateError::TagPending);
        }
        payload_limit_with_tag(transfer, tag, self.inner.max_frame_size, payload).ok_or(
            LinkStateError::NoRoom,
        )
    }

    // Begins a delivery that no test refuses: makes its frames, and registers it if it is unsettled.
    fn begin(
        &mut self,
        input_handle: InputHandle,
        transfer: Transfer,
        tag: DeliveryTag,
        message_format: MessageFormat,
        payload: &Payload,
        limit: usize,
    ) -> Result<(Settlement, Vec<LinkFrame>), AllocError>
        requires handle { self.old.input_handle ≡ Some input_handle }
        requires room { has_room transfer self.old.max_frame_size payload.now ≡ true }
        requires limit { limit ≡ Room.payload_limit transfer self.old.max_frame_size }
        requires some { 0 < length payload.now → 0 < limit }
        ensures sent { IfOk result (λ sent.
            SendsTransfer self.old message_format transfer tag payload.now sent.0 sent.1.items self.new) }
        ensures fits { IfOk result (λ sent.
            IsFitting transfer self.old.max_frame_size payload.now sent.1.items) }
        ensures left { OnErr result (self.new ≡ self.old) }
    {
        let is_settled = self.is_settled_on_send(&transfer);
        let frames = match frames(self.alloc, input_handle, transfer, payload, limit) {
            Ok(frames) => frames,
            Err(refused) => {
                drop(tag);
                return Err(refused);
            }
        };
        if is_settled {
            return Ok((Settlement::Settled(tag), frames));
        }
        if let Err(refused) = self.register(&tag, payload, message_format) {
            drop((tag, frames));
            return Err(refused);
        }
        Ok((Settlement::Unsettled(tag), frames))
    }

    /// Sends a payload with this transfer, which carries the delivery-tag. Spends no credit. An unsettled
    /// delivery is registered with its whole payload and without a state, whatever state the transfer has.
    ///
    /// Refused in this order, with nothing changed: `IllegalState` if the transfer has no tag, then without
    /// input handle; `TagPending` for an unsettled delivery; `NoRoom`; `OutOfMemory`.
    ///
    /// Its cost is that of `send_payload`.
    pub fn send_payload_with_transfer(
        &mut self,
        message_format: MessageFormat,
        mut transfer: Transfer,
        payload: &Payload,
    ) -> Result<(Settlement, Vec<LinkFrame>), LinkStateError>
        ensures sent { IfOk result (λ sent. IsSomeAnd transfer.delivery_tag (λ tag.
            SendsTransfer self.old message_format transfer tag payload.now sent.0 sent.1.items self.new)) }
        ensures fits { IfOk result (λ sent.
            IsFitting transfer self.old.max_frame_size payload.now sent.1.items) }
        ensures refused { AnswersThenOutOfMemory LinkStateError.OutOfMemory result
            (tagged_transfer_tests self.old transfer payload.now) }
        ensures left { OnErr result (self.new ≡ self.old) }
    {
        match self.admit_tagged(&mut transfer, payload) {
            Ok((input_handle, tag, limit)) => {
                Ok(self.begin(input_handle, transfer, tag, message_format, payload, limit)?)
            }
            Err(refused) => {
                drop(transfer);
                Err(refused)
            }
        }
    }

    // Registers a delivery that was sent, with its whole payload and no state.
    fn register(
        &mut self,
        tag: &DeliveryTag,
        payload: &Payload,
        message_format: MessageFormat,
    ) -> Result<(), AllocError>
        ensures after { OnOk result (self.new ≡ record self.old {
          unsettled = with_entry self.old.unsettled tag.now (new_entry message_format payload.now);
        }) }
        ensures left { OnErr result (self.new ≡ self.old) }
    {
        let entry = UnsettledMessage::new(payload.clone()?, None, message_format);
        let tag = match tag.clone() {
            Ok(tag) => tag,
            Err(refused) => {
                drop(entry);
                return Err(refused);
            }
        };
        let put = self.unsettled.put(tag, entry);
        let is_kept = put.is_ok();
        drop(put);
        if is_kept { Ok(()) } else { Err(AllocError) }
    }

    /// Whether `send_payload_with_transfer` would send this payload now. Its refusals are the same, in the
    /// same order, without `OutOfMemory`. Does not allocate, and changes nothing: the transfer stays as it
    /// is.
    pub fn can_send_with_transfer(
        &self,
        transfer: &mut Transfer,
        payload: &Payload,
    ) -> Result<(), LinkStateError>
        ensures refused { AnswersExactly result
            (tagged_transfer_tests self.now transfer.old payload.now) }
        ensures same { transfer.new ≡ transfer.old }
    {
        let limit = payload_limit(transfer, self.inner.max_frame_size, payload);
        let _ = self.admitted(transfer, limit)?;
        Ok(())
    }

    // The input handle, the delivery-tag and the payload limit for a transfer that carries its tag, if no
    // test refuses it. The transfer stays as it is.
    fn admit_tagged(
        &self,
        transfer: &mut Transfer,
        payload: &Payload,
    ) -> Result<(InputHandle, DeliveryTag, usize), LinkStateError>
        ensures handle { IfOk result (λ sent. self.now.input_handle ≡ Some sent.0) }
        ensures tag { IfOk result (λ sent. transfer.old.delivery_tag ≡ Some sent.1) }
        ensures limit { IfOk result (λ sent.
            sent.2 ≡ Room.payload_limit transfer.old self.now.max_frame_size) }
        ensures some { IfOk result (λ sent. 0 < length payload.now → 0 < sent.2) }
        ensures refused { AnswersThenOutOfMemory LinkStateError.OutOfMemory result
            (tagged_transfer_tests self.now transfer.old payload.now) }
        ensures same { transfer.new ≡ transfer.old }
    {
        let limit = payload_limit(transfer, self.inner.max_frame_size, payload);
        let (input_handle, tag, limit) = self.admitted(transfer, limit)?;
        Ok((input_handle, tag.clone()?, limit))
    }

    // The same for a given payload limit, or none if no frame has room. The tag stays in the transfer.
    fn admitted<'a>(
        &self,
        transfer: &'a Transfer,
        limit: Option<usize>,
    ) -> Result<(InputHandle, &'a DeliveryTag, usize), LinkStateError>
        ensures handle { IfOk result (λ sent. self.now.input_handle ≡ Some sent.0) }
        ensures tag { IfOk result (λ sent. transfer.now.delivery_tag ≡ Some sent.1.now) }
        ensures limit { IfOk result (λ sent. limit ≡ Some sent.2) }
        ensures refused { AnswersExactly result (tagged_tests self.now transfer.now (is_none limit)) }
    {
        let Some(tag) = &transfer.delivery_tag else {
            return Err(LinkStateError::IllegalState);
        };
        let Some(input_handle) = self.inner.input_handle else {
            return Err(LinkStateError::IllegalState);
        };
        if !self.is_settled_on_send(transfer) && self.unsettled.contains(tag) {
            return Err(LinkStateError::TagPending);
        }
        match limit {
            Some(limit) => Ok((input_handle, tag, limit)),
            None => Err(LinkStateError::NoRoom),
        }
    }

    /// The frames of a payload with this transfer, and whether it is sent settled. The link does not change.
    ///
    /// Refused in this order: `IllegalState` without input handle; `NoRoom`; `OutOfMemory`.
    ///
    /// Its cost grows with the number of frames; the payload is cut without copying its bytes.
    pub fn send_transfer_without_modifying_unsettled_map(
        &self,
        mut transfer: Transfer,
        payload: &Payload,
    ) -> Result<(bool, Vec<LinkFrame>), LinkStateError>
        ensures settled { IfOk result (λ sent. sent.0 ≡ settled_on_send self.now transfer) }
        ensures sent { IfOk result (λ sent. IsSent self.now transfer payload.now sent.1.items) }
        ensures fits { IfOk result (λ sent.
            IsFitting transfer self.now.max_frame_size payload.now sent.1.items) }
        ensures refused { AnswersThenOutOfMemory LinkStateError.OutOfMemory result
            (transfer_tests self.now transfer payload.now) }
    {
        let is_settled = self.is_settled_on_send(&transfer);
        let Some(input_handle) = self.inner.input_handle else {
            drop(transfer);
            return Err(LinkStateError::IllegalState);
        };
        let Some(limit) = payload_limit(&mut transfer, self.inner.max_frame_size, payload) else {
            drop(transfer);
            return Err(LinkStateError::NoRoom);
        };
        let frames = frames(self.alloc, input_handle, transfer, payload, limit)?;
        Ok((is_settled, frames))
    }
}

// A tag of these bytes, twice: one for the result of a send, and one for its transfer.
fn tags_of(alloc: Global, bytes: &[u8]) -> Result<(DeliveryTag, DeliveryTag), AllocError>
    ensures { IfOk result (λ tags. (tags.0 ≡ bytes.now) × (tags.1 ≡ bytes.now)) }
{
    let tag = DeliveryTag::copied(alloc, bytes)?;
    let named = DeliveryTag::copied(alloc, bytes)?;
    Ok((tag, named))
}
