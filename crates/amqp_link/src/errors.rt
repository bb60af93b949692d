//! The errors that calls return.

pub use amqp_link_credit::CreditRunError;
pub use amqp_link_delivery::{RecvError, SendError};
pub use amqp_link_ledger::fate::StillPending;
pub use amqp_link_pair::PairError;
pub use amqp_link_state::state::InsufficientCredit;
pub use amqp_link_types::types::{
    ApplyRemoteDetachError, ConnectionStopReason, DecodeError, DetachError, DispositionError,
    FlowError, LinkRelayError, LinkStateError, MessageDecodeError, ReceiverAttachError,
    ReceiverTransferError, SenderAttachError, SessionStopReason,
};
pub use amqp_link_verification::FilterError;
