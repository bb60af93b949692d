//! Runs a script of link events, one a line, on a pair of link endpoints over one wire.
//!
//! The script is read from standard input, the answers are written to standard output, and what ends a run
//! early is written to standard error. Empty lines are skipped. The exit status is 0 at the end of the script, 2
//! at a line that is no event, and 1 if reading or writing fails, or if it is out of memory for the pair or for a
//! line; an event that is out of memory is answered as refused.
#![tactic(auto)]

mod answer;
mod event;
mod fault;
mod hex;
mod number;
mod script;
mod status;

use line_text::streams::buffered;
pub use script::run_script;
pub use status::Status;
use std::io::Lock;
use std::process::ExitCode;

fn main(rt: HostRuntime) -> ExitCode {
    let alloc = rt.alloc();
    let Ok((mut input, mut output)) = buffered(alloc, rt.reader(), rt.stdout().lock()) else {
        return ExitCode::FAILURE;
    };
    let mut faults = rt.stderr().lock();
    let status = run_script(alloc, &mut input, &mut output, &mut faults);
    ExitCode::from(status.code())
}
