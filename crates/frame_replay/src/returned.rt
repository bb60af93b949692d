//! What a call of an endpoint has returned, added to what the endpoint has made.
use crate::refusal::{Refusal, refused};
use amqp_link_types::frame::LinkFrame;
use amqp_link_types::types::{LinkFlow, LinkRelayError};
use replay_report::answer::{Answer, StepError};
use replay_report::made::Made;
use std::alloc::Global;

/// Adds the frame that a call has returned.
pub fn add_returned<E: Refusal>(
    alloc: Global,
    made: &mut Made,
    returned: Result<LinkFrame, E>,
) -> Result<Answer, StepError> {
    match returned {
        Ok(frame) => {
            made.add_frame(frame)?;
            Ok(Answer::Taken)
        }
        Err(error) => refused(alloc, error),
    }
}

/// Adds the frames that a call has returned.
pub fn add_all_returned<E: Refusal>(
    alloc: Global,
    made: &mut Made,
    returned: Result<Vec<LinkFrame>, E>,
) -> Result<Answer, StepError> {
    match returned {
        Ok(frames) => {
            made.add_frames(frames)?;
            Ok(Answer::Taken)
        }
        Err(error) => refused(alloc, error),
    }
}

/// Adds the flow that is to be sent in reply to one that has arrived, if there is one.
pub fn add_reply<E: Refusal>(
    alloc: Global,
    made: &mut Made,
    returned: Result<Option<LinkFlow>, E>,
) -> Result<Answer, StepError> {
    match returned {
        Ok(Some(flow)) => {
            made.add_flow(flow)?;
            Ok(Answer::Taken)
        }
        Ok(None) => Ok(Answer::Taken),
        Err(error) => refused(alloc, error),
    }
}

/// Adds the flow that gives credit back. An endpoint that is not attached makes none.
pub fn add_given_back(
    made: &mut Made,
    returned: Result<Option<LinkFlow>, LinkRelayError>,
) -> Result<(), StepError> {
    if let Ok(Some(flow)) = returned {
        made.add_flow(flow)?;
    }
    Ok(())
}
