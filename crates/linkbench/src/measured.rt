//! A work, and the time that it takes.
use crate::refused::Refused;
use std::rt::Clock;
use std::time::Instant;

/// A work with all that it needs: what was made ready before is not measured.
pub trait Work: Drop {
    /// Does it, and returns a number that shows what was done.
    fn perform(&mut self) -> Result<u64, Refused>;
}

/// What a work did, and the nanoseconds that it took.
#[derive(Clone, Copy)]
pub struct Measured {
    pub did: u64,
    pub nanoseconds: u64,
}

/// Does a work that is ready, and measures it.
pub fn measure<C: Clock, W: Work>(clock: &C, mut work: W) -> Result<Measured, Refused> {
    let measured = perform(clock, &mut work);
    drop(work);
    measured
}

fn perform<C: Clock, W: Work>(clock: &C, work: &mut W) -> Result<Measured, Refused> {
    let start = Instant::now(clock)?;
    let did = work.perform()?;
    let elapsed = start.elapsed(clock)?;
    Ok(Measured {
        did,
        nanoseconds: u64::try_from(elapsed.as_nanos()).unwrap_or(u64::MAX),
    })
}
