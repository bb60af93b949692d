//! Why a run ends early.
use link_checks::Check;
use std::fmt;

/// Why a run has ended before its last frame.
#[derive(Clone, Copy, Debug, PartialEq, Eq)]
pub enum Broken {
    /// A check has failed at this frame, counted from 1, of this life, counted from 1.
    Failed {
        /// What does not hold.
        check: Check,
        /// In which life.
        life: u64,
        /// After which of its frames, or with it.
        frame: u64,
    },
    /// Out of memory.
    OutOfMemory,
}

impl fmt::Display for Broken {
    fn fmt<W: fmt::Write>(&self, f: &mut fmt::Formatter<W>) -> fmt::Result {
        match self {
            Broken::Failed { check, life, frame } => {
                let words = check.words();
                write!(
                    f,
                    "at frame {frame} of life {life} it does not hold that {words}"
                )
            }
            Broken::OutOfMemory => f.write_str("out of memory"),
        }
    }
}
