//! The calls of an inbox as values, and what each returns.
use amqp_link_core::incomplete_transfer::RefusedTransfer;
use amqp_link_inbox::{Arrived, DisposeError, Forgotten, TakeError};
use amqp_link_receiver::receiver_link::ReceiverAttachExchange;
use amqp_link_types::delivery::Delivery;
use amqp_link_types::frame::LinkFrame;
use amqp_link_types::types::{
    ApplyRemoteDetachError, Attach, DeliveryState, DeliveryTag, Detach, DetachError, Error,
    FlowError, LinkFlow, LinkRelayError, OutputHandle, Payload, ReceiverAttachError, Transfer,
};
use std::alloc::AllocError;

/// A call of an inbox that may change it, with its arguments.
#[derive(Debug, Drop)]
pub enum Call {
    /// The output handle of a new session is set (`output_handle_mut`).
    SetOutputHandle(OutputHandle),
    /// `send_attach`, reattached or not.
    SendAttach(bool),
    /// `on_incoming_attach`.
    OnIncomingAttach(Attach),
    /// `on_incoming_transfer`.
    OnIncomingTransfer(Transfer, Payload),
    /// `take`, of the delivery with this tag.
    Take(DeliveryTag),
    /// `take_settled`.
    TakeSettled,
    /// `dispose`, of the delivery with this tag.
    Dispose {
        /// The delivery's tag.
        tag: DeliveryTag,
        /// Whether the disposition settles it, if the caller says so.
        settled: Option<bool>,
        /// The delivery's state.
        state: DeliveryState,
        /// Whether the reply may wait.
        batchable: bool,
    },
    /// `dispose_all`, of the deliveries with these tags.
    DisposeAll {
        /// The deliveries' tags.
        tags: Vec<DeliveryTag>,
        /// Whether the dispositions settle them, if the caller says so.
        settled: Option<bool>,
        /// The deliveries' state.
        state: DeliveryState,
        /// Whether the reply may wait.
        batchable: bool,
    },
    /// `keep_outcome`, of the delivery with this tag.
    KeepOutcome(DeliveryTag, DeliveryState),
    /// `on_incoming_disposition`: whether the sender settles the delivery with this tag, and the state that it states.
    OnIncomingDisposition(bool, Option<DeliveryState>, DeliveryTag),
    /// `send_flow`.
    SendFlow {
        /// The link-credit, if it is set.
        credit: Option<u32>,
        /// The drain flag, if it is set.
        drain: Option<bool>,
        /// Whether the sender is asked for its flow.
        echo: bool,
        /// Whether the flow has the link's properties.
        include_properties: bool,
    },
    /// `on_incoming_flow`.
    OnIncomingFlow(LinkFlow),
    /// `send_detach`: one that closes the link or not, with this error.
    SendDetach(bool, Option<Error>),
    /// `on_detach_reply`.
    OnDetachReply(Detach),
    /// `apply_remote_detach_outcome`.
    ApplyRemoteDetachOutcome(Detach),
    /// `on_session_lost`.
    OnSessionLost,
}

/// What a call of an inbox returns, if messages have bodies of this type.
#[derive(Debug, Drop)]
pub enum AnswerOf<B> {
    /// The handle is set, or the session is lost.
    Done,
    /// Of `send_attach`.
    AttachSent(Result<LinkFrame, ReceiverAttachError>),
    /// Of `on_incoming_attach`.
    Attached(Result<(ReceiverAttachExchange, Vec<Forgotten>), ReceiverAttachError>),
    /// Of `on_incoming_transfer`.
    Arrived(Result<Arrived, RefusedTransfer>),
    /// Of `take`.
    Taken(Result<Delivery<B>, TakeError>),
    /// Of `take_settled`.
    SettledTaken(Result<Option<Delivery<B>>, TakeError>),
    /// Of `dispose`.
    Disposed(Result<LinkFrame, DisposeError>),
    /// Of `dispose_all`.
    AllDisposed(Result<Vec<LinkFrame>, DisposeError>),
    /// Of `keep_outcome`.
    OutcomeKept(Result<(), DisposeError>),
    /// Of `on_incoming_disposition`.
    DispositionTaken(Result<(), AllocError>),
    /// Of `send_flow`.
    FlowSent(Result<LinkFrame, FlowError>),
    /// Of `on_incoming_flow`.
    FlowTaken(Result<Option<LinkFlow>, LinkRelayError>),
    /// Of `send_detach`.
    DetachSent(Result<LinkFrame, DetachError>),
    /// Of `on_detach_reply`.
    DetachReplied(Result<(), DetachError>),
    /// Of `apply_remote_detach_outcome`.
    DetachTaken(Result<(), ApplyRemoteDetachError>),
}
