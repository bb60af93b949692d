//! What is checked, and why a run ends early.

ghost use Rattle.std.specs.Prelude.{◌↔◌, IsOk, IsTrue};

use std::alloc::{AllocError, AllocFailed};

/// What is checked after each call, and no contract of a single call says.
#[derive(Clone, Copy, Debug, PartialEq, Eq)]
pub enum Check {
    /// A frame that is sent is not longer than the frame limit.
    FrameFits,
    /// A transfer has `more` exactly if the same call returns another after it, and only the first one names its delivery.
    MoreFollows,
    /// No tag is twice in an attach that is sent.
    TagsOfAttach,
    /// No tag is twice in an unsettled map.
    TagsOfMap,
    /// What is held of all deliveries grows by no more than the bytes that have come, or that were sent, with this call.
    HeldGrows,
    /// All that was taken and all that is held are no more bytes than have come.
    BytesCame,
    /// As many registrations have a fate as were made.
    Registered,
    /// Each registration is pending, or has ended once: by an outcome that was returned, by an exchange, or withdrawn.
    EndsOnce,
    /// While a link of receiver settle mode second is attached, the session was told of each unsettled delivery that has an id.
    IdsNoted,
}

impl Check {
    /// What holds.
    pub fn words(self) -> &'static str {
        match self {
            Check::FrameFits => "no frame is longer than the frame limit",
            Check::MoreFollows => "a transfer has more exactly if another of its delivery follows",
            Check::TagsOfAttach => "no tag is twice in an attach",
            Check::TagsOfMap => "no tag is twice in an unsettled map",
            Check::HeldGrows => "what is held grows by no more than what comes",
            Check::BytesCame => "no more is taken and held than has come",
            Check::Registered => "each registration has a fate",
            Check::EndsOnce => "each registration is pending or has ended once",
            Check::IdsNoted => "the session knows each delivery that has an id",
        }
    }
}

/// Why a step of a run is not completed.
#[derive(Clone, Copy, Debug, PartialEq, Eq)]
pub enum Stop {
    /// A check has failed.
    Failed(Check),
    /// Out of memory.
    OutOfMemory,
}

impl From<AllocError> for Stop {
    fn from(_error: AllocError) -> Stop {
        Stop::OutOfMemory
    }
}

impl<T: Drop> From<AllocFailed<T>> for Stop {
    fn from(_error: AllocFailed<T>) -> Stop {
        Stop::OutOfMemory
    }
}

/// Whether this holds, or which check has failed.
pub fn holds(check: Check, is_so: bool) -> Result<(), Stop>
    ensures { IsOk result ↔ IsTrue is_so }
{
    if is_so {
        Ok(())
    } else {
        Err(Stop::Failed(check))
    }
}
