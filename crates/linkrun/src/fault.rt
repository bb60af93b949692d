//! What ends a run before the end of its script, as it is printed.
ghost use Rattle.std.specs.Prelude.{◌≡◌};

use crate::status::Status;
use std::fmt;

/// Why a run ended early.
#[derive(Clone, Copy, Debug, PartialEq, Eq)]
pub enum Fault {
    /// This line, counted from 1, states no event.
    NotAnEvent(u64),
    /// A read failed, or the run is out of memory for a line.
    InputFailed,
}

impl Fault {
    ghost use Rattle.linkrun.specs.Fault.{status_of};

    /// How the run ends.
    pub fn status(self) -> Status
        ensures { result ≡ status_of self }
    {
        match self {
            Fault::NotAnEvent(_) => Status::Stopped,
            Fault::InputFailed => Status::Failed,
        }
    }
}

impl fmt::Display for Fault {
    ghost use Rattle.std.specs.Prelude.{Some};
    ghost use Rattle.linkrun.specs.Fault.{fault_text};

    ghost output = { λ fault. Some (fault_text fault) };

    fn fmt<W: fmt::Write>(&self, f: &mut fmt::Formatter<W>) -> fmt::Result {
        match self {
            Fault::NotAnEvent(number) => write!(f, "line {number}: not an event"),
            Fault::InputFailed => f.write_str("input failed"),
        }
    }
}
