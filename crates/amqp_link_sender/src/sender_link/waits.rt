//! What is pending at a sender when a payload is to be sent.
ghost use Rattle.std.specs.Prelude.{◌≡◌};
ghost use Rattle.amqp_link_sender.specs.Waits.{waiting_error, after_waiting, frame_error, after_frame, stop_error};
ghost use Rattle.amqp_link_sender.specs.Waits.{detach_error, after_detach, recorded_error};

use crate::sender_link::{SenderLink, Waiting};
use amqp_link_endpoint::endpoint::LinkDetach;
use amqp_link_endpoint::endpoint::target::LinkTarget;
use amqp_link_types::frame::LinkFrame;
use amqp_link_types::types::{ApplyRemoteDetachError, Detach, LinkStateError, SessionStopReason};

impl<T: LinkTarget> SenderLink<T> {
    // Handles what is pending, and returns why nothing can be sent, if so.
    pub(super) fn take_waiting(&mut self, waiting: Waiting) -> Option<LinkStateError>
        ensures answer { result ≡ waiting_error self.old.local_state waiting }
        ensures after { self.new ≡ after_waiting self.old waiting }
    {
        match waiting {
            Waiting::Nothing => None,
            Waiting::Frame(frame) => Some(self.take_frame(frame)),
            Waiting::Stopped(reason) => Some(error_of_stop(reason)),
        }
    }

    // Handles a frame that is pending: a detach is recorded.
    fn take_frame(&mut self, frame: LinkFrame) -> LinkStateError
        ensures answer { result ≡ frame_error self.old.local_state frame }
        ensures after { self.new ≡ after_frame self.old frame }
    {
        match frame {
            LinkFrame::Detach(detach) => self.take_detach(detach),
            other => {
                drop(other);
                LinkStateError::ExpectImmediateDetach
            }
        }
    }

    fn take_detach(&mut self, detach: Detach) -> LinkStateError
        ensures answer { result ≡ detach_error self.old.local_state detach }
        ensures after { self.new ≡ after_detach self.old detach }
    {
        let closed = detach.closed;
        match self.apply_remote_detach_outcome(detach) {
            Ok(()) if closed => LinkStateError::RemoteClosed,
            Ok(()) => LinkStateError::RemoteDetached,
            Err(error) => error_of_record(error),
        }
    }
}

// The link's error for an error of recording a detach.
fn error_of_record(error: ApplyRemoteDetachError) -> LinkStateError
    ensures { result ≡ recorded_error error }
{
    match error {
        ApplyRemoteDetachError::IllegalState => LinkStateError::IllegalState,
        ApplyRemoteDetachError::RemoteDetachedWithError(error) => {
            LinkStateError::RemoteDetachedWithError(error)
        }
        ApplyRemoteDetachError::RemoteClosedWithError(error) => {
            LinkStateError::RemoteClosedWithError(error)
        }
    }
}

// Why nothing can be sent once the session has stopped.
fn error_of_stop(reason: Option<SessionStopReason>) -> LinkStateError
    ensures { result ≡ stop_error reason }
{
    match reason {
        Some(reason) => LinkStateError::SessionStopped(reason),
        None => LinkStateError::ExpectImmediateDetach,
    }
}
