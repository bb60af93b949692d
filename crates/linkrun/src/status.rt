//! How a run ends.
ghost use Rattle.std.specs.Prelude.{◌≡◌};

/// How a run ended.
#[derive(Clone, Copy, Debug, PartialEq, Eq)]
pub enum Status {
    /// At the end of the script.
    Complete,
    /// A read or a write failed, or it is out of memory for the pair or for a line.
    Failed,
    /// At a line that is no event.
    Stopped,
}

impl Status {
    ghost use Rattle.linkrun.specs.Fault.{code_of};

    /// The exit status.
    pub fn code(self) -> u8
        ensures { result ≡ code_of self }
    {
        match self {
            Status::Complete => 0,
            Status::Failed => 1,
            Status::Stopped => 2,
        }
    }
}
