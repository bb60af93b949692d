//! What a row has come to.
ghost use Rattle.std.specs.Prelude.{◌≡◌, MatchOption};

use performative_rows::error::RowError;
use std::alloc::{AllocError, AllocFailed};
use std::fmt;

/// What a row has come to.
#[derive(Drop)]
pub enum Answer {
    /// A trace has begun.
    Begun,
    /// The endpoint has taken the frame or the call, or the row states nothing.
    Taken,
    /// The endpoint has refused the frame or the call, for this reason.
    Refused(String),
    /// What is stated is what was seen.
    Agrees,
    /// It is not.
    Differs(Difference),
    /// The trace has ended. If no row has stated something that its endpoint has made, other than flows, this is a word for it.
    Ended(Option<&'static str>),
}

/// How what was seen differs from what is stated.
#[derive(Clone, Copy)]
pub enum Difference {
    /// Nothing of the kind was seen.
    Nothing,
    /// Another value of this field was seen.
    Field(&'static str),
    /// Another number was seen.
    Number {
        /// The number that is stated.
        stated: u64,
        /// The one that was seen.
        seen: u64,
    },
    /// Another limit of a flow was seen: its delivery-count plus its link-credit.
    Limit {
        /// The limit that is stated.
        stated: u32,
        /// The one that was seen.
        seen: u32,
    },
}

impl fmt::Display for Difference {
    fn fmt<W: fmt::Write>(&self, f: &mut fmt::Formatter<W>) -> fmt::Result {
        match self {
            Difference::Nothing => f.write_str("stated, none seen"),
            Difference::Field(name) => write!(f, "stated, another {name} seen"),
            Difference::Number { stated, seen } => write!(f, "{stated} stated, {seen} seen"),
            Difference::Limit { stated, seen } => write!(f, "up to {stated} stated, {seen} seen"),
        }
    }
}

/// Agrees if there is no difference.
pub fn answer_of(difference: Option<Difference>) -> Answer
    ensures { MatchOption difference (result ≡ Answer.Agrees) (λ found. result ≡ Answer.Differs found) }
{
    match difference {
        Some(difference) => Answer::Differs(difference),
        None => Answer::Agrees,
    }
}

/// Why a line is not run as a row.
#[derive(Clone, Copy)]
pub enum StepError {
    /// The line is no row.
    NotARow,
    /// No link has begun, or the one before has not ended.
    NoLink,
    /// The endpoint's role has no such row.
    OtherRole,
    /// Out of memory.
    OutOfMemory,
}

impl fmt::Display for StepError {
    fn fmt<W: fmt::Write>(&self, f: &mut fmt::Formatter<W>) -> fmt::Result {
        match self {
            StepError::NotARow => f.write_str("not a row"),
            StepError::NoLink => f.write_str("no link has begun, or the one before has not ended"),
            StepError::OtherRole => f.write_str("an endpoint of the other role has such rows"),
            StepError::OutOfMemory => f.write_str("out of memory"),
        }
    }
}

impl From<RowError> for StepError {
    fn from(error: RowError) -> StepError {
        match error {
            RowError::NotARow => StepError::NotARow,
            RowError::OutOfMemory => StepError::OutOfMemory,
        }
    }
}

impl From<AllocError> for StepError {
    fn from(_error: AllocError) -> StepError {
        StepError::OutOfMemory
    }
}

impl<T: Drop> From<AllocFailed<T>> for StepError {
    fn from(_error: AllocFailed<T>) -> StepError {
        StepError::OutOfMemory
    }
}
