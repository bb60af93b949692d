//! Why the layers below a link have stopped. They pass it to the link.
ghost use Rattle.std.specs.Prelude.{◌≡◌, true, false, IfOk, OnErr};
ghost use Rattle.amqp_link_types.specs.Copies.{connection_stop_carries_more, session_stop_carries_more};

use crate::types::definitions::Error;
use std::alloc::AllocError;

/// Why a connection has stopped (2.4).
#[derive(Debug, PartialEq, Eq, Drop)]
pub enum ConnectionStopReason {
    /// It was closed.
    Closed,
    /// The peer closed it with this error.
    RemoteClosedWithError(Error),
}

/// Why a session has stopped (2.5).
#[derive(Debug, PartialEq, Eq, Drop)]
pub enum SessionStopReason {
    /// It was ended.
    Ended,
    /// Its connection has stopped.
    ConnectionStopped(ConnectionStopReason),
}

impl Clone for ConnectionStopReason {
    ghost is_clone = { λ reason copy. copy ≡ reason };

    ghost is_infallible = { λ reason. connection_stop_carries_more reason ≡ false };

    fn clone(&self) -> Result<ConnectionStopReason, AllocError>
        ensures copy { IfOk result (λ copy. copy ≡ self.now) }
        ensures memory { OnErr result (connection_stop_carries_more self.now ≡ true) }
    {
        let copy = match self {
            ConnectionStopReason::Closed => ConnectionStopReason::Closed,
            ConnectionStopReason::RemoteClosedWithError(error) => {
                ConnectionStopReason::RemoteClosedWithError(error.clone()?)
            }
        };
        Ok(copy)
    }
}

impl Clone for SessionStopReason {
    ghost is_clone = { λ reason copy. copy ≡ reason };

    ghost is_infallible = { λ reason. session_stop_carries_more reason ≡ false };

    fn clone(&self) -> Result<SessionStopReason, AllocError>
        ensures copy { IfOk result (λ copy. copy ≡ self.now) }
        ensures memory { OnErr result (session_stop_carries_more self.now ≡ true) }
    {
        let copy = match self {
            SessionStopReason::Ended => SessionStopReason::Ended,
            SessionStopReason::ConnectionStopped(reason) => {
                SessionStopReason::ConnectionStopped(reason.clone()?)
            }
        };
        Ok(copy)
    }
}
