//! Roles, link states with their table, and the flow states that count credit.

pub use amqp_link_endpoint::endpoint::table::{
    after_detach_reply, after_incoming_attach, after_lost_session, after_remote_detach,
    after_sent_attach, after_sent_detach,
};
pub use amqp_link_state::role::{IntoRole, ReceiverMarker, SenderMarker};
pub use amqp_link_state::state::{
    DEFAULT_CREDIT, InsufficientCredit, LinkFlowState, LinkFlowStateInner, LinkState,
};
