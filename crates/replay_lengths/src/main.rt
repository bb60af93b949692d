//! Replays lengths that encoders of AMQP 1.0 gave, or that were worked by hand: builds the value of each row,
//! and compares its computed length with the one that the row states.
//!
//! The rows are read from standard input; the rows that do not agree, and how many of each type do, are
//! written to standard output. The exit status is 0 if all agree, 1 if some do not, 2 at a line that is no
//! row, and 3 if reading or writing fails, or if it is out of memory.
#![tactic(auto)]

mod replay;
mod tally;

use line_text::streams::buffered;
pub use replay::replay;
use std::io::Lock;
use std::process::ExitCode;

fn main(rt: HostRuntime) -> ExitCode {
    let alloc = rt.alloc();
    let Ok((mut input, mut output)) = buffered(alloc, rt.reader(), rt.stdout().lock()) else {
        return ExitCode::from(3);
    };
    ExitCode::from(replay(alloc, &mut input, &mut output))
}
