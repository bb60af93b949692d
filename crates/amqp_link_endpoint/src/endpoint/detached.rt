//! The detach that an endpoint sends, and the results of those that it takes (2.7.7). Nothing here allocates.
ghost use Rattle.std.specs.Prelude.{◌≡◌};
ghost use Rattle.amqp_link_endpoint.specs.Detaching.{recorded, reply_error, remote_error};
ghost use Rattle.amqp_link_endpoint.specs.Detaching;

use amqp_link_types::frame::LinkFrame;
use amqp_link_types::types::{ApplyRemoteDetachError, Detach, DetachError, Error, OutputHandle};

/// The detach that is sent at an output handle. It moves no state: `LinkDetach::send_detach` does that. After an
/// incomplete exchange, from which `send_detach` has no transition, a link is detached by this frame, and the
/// peer's reply goes to `apply_remote_detach_outcome`.
pub fn detach_frame(handle: OutputHandle, closed: bool, error: Option<Error>) -> LinkFrame
    ensures { result ≡ Detaching.detach_frame handle closed error }
{
    LinkFrame::Detach(Detach {
        handle: handle.into(),
        closed,
        error,
    })
}

/// The result of taking the peer's reply to a detach of this endpoint.
pub fn result_of_reply(detach: Detach) -> Result<(), DetachError>
    ensures { result ≡ recorded reply_error detach.closed detach.error }
{
    match detach.error {
        None => Ok(()),
        Some(error) if detach.closed => Err(DetachError::RemoteClosedWithError(error)),
        Some(error) => Err(DetachError::RemoteDetachedWithError(error)),
    }
}

/// The result of taking a detach that the peer initiated.
pub fn result_of_remote_detach(detach: Detach) -> Result<(), ApplyRemoteDetachError>
    ensures { result ≡ recorded remote_error detach.closed detach.error }
{
    match detach.error {
        None => Ok(()),
        Some(error) if detach.closed => {
            Err(ApplyRemoteDetachError::RemoteClosedWithError(error))
        }
        Some(error) => Err(ApplyRemoteDetachError::RemoteDetachedWithError(error)),
    }
}
