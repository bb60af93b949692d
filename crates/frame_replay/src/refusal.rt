//! Why an endpoint refuses a row, as an answer.
ghost use Rattle.std.specs.Prelude.{◌≡◌, IfOk, MatchResult};
ghost use Rattle.replay_report.specs.Answers.{IsRefusal};

use amqp_link_inbox::{DisposeError, TakeError};
use amqp_link_types::types::{
    ApplyRemoteDetachError, DetachError, DispositionError, FlowError, LinkRelayError,
    LinkStateError, ReceiverAttachError, ReceiverTransferError, SenderAttachError,
};
use replay_report::answer::{Answer, StepError};
use std::alloc::Global;
use std::fmt;

/// Why an endpoint refuses a frame or a call.
pub trait Refusal: fmt::Display + Drop {
    /// Whether it is out of memory.
    fn is_out_of_memory(&self) -> bool;
}

/// The answer to a row that is refused.
pub fn refused<E: Refusal>(alloc: Global, error: E) -> Result<Answer, StepError>
    ensures { IfOk result IsRefusal }
{
    if error.is_out_of_memory() {
        drop(error);
        return Err(StepError::OutOfMemory);
    }
    Ok(Answer::Refused(error.to_string(alloc)?))
}

/// The answer to a frame or a call that makes nothing.
pub fn taken<T: Drop, E: Refusal>(
    alloc: Global,
    returned: Result<T, E>,
) -> Result<Answer, StepError>
    ensures { MatchResult returned (λ _. result ≡ Ok Answer.Taken) (λ _. IfOk result IsRefusal) }
{
    match returned {
        Ok(value) => {
            drop(value);
            Ok(Answer::Taken)
        }
        Err(error) => refused(alloc, error),
    }
}

/// The answer to a row that names what there is not.
pub fn refused_with(alloc: Global, reason: &str) -> Result<Answer, StepError>
    ensures { IfOk result IsRefusal }
{
    Ok(Answer::Refused(String::from_str(alloc, reason)?))
}

impl Refusal for SenderAttachError {
    fn is_out_of_memory(&self) -> bool {
        matches!(self, SenderAttachError::OutOfMemory)
    }
}

impl Refusal for ReceiverAttachError {
    fn is_out_of_memory(&self) -> bool {
        matches!(self, ReceiverAttachError::OutOfMemory)
    }
}

impl Refusal for LinkStateError {
    fn is_out_of_memory(&self) -> bool {
        matches!(self, LinkStateError::OutOfMemory)
    }
}

impl Refusal for LinkRelayError {
    fn is_out_of_memory(&self) -> bool {
        matches!(self, LinkRelayError::OutOfMemory)
    }
}

impl Refusal for FlowError {
    fn is_out_of_memory(&self) -> bool {
        matches!(self, FlowError::OutOfMemory)
    }
}

impl Refusal for DispositionError {
    fn is_out_of_memory(&self) -> bool {
        matches!(self, DispositionError::OutOfMemory)
    }
}

impl Refusal for DisposeError {
    fn is_out_of_memory(&self) -> bool {
        matches!(self, DisposeError::OutOfMemory)
    }
}

impl Refusal for TakeError {
    fn is_out_of_memory(&self) -> bool {
        matches!(self, TakeError::OutOfMemory)
    }
}

impl Refusal for ReceiverTransferError {
    fn is_out_of_memory(&self) -> bool {
        matches!(self, ReceiverTransferError::OutOfMemory)
    }
}

// A detach does not allocate.
impl Refusal for DetachError {
    fn is_out_of_memory(&self) -> bool {
        false
    }
}

impl Refusal for ApplyRemoteDetachError {
    fn is_out_of_memory(&self) -> bool {
        false
    }
}
