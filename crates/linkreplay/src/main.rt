//! Replays rows of frames: each frame that arrives at a link endpoint and each call of its user, with the facts that a peer
//! and its application have stated of the endpoint.
//!
//! The rows are read from standard input; the facts that do not agree, and how many do, are written to standard output. The
//! exit status is 0 if all agree, 1 if some do not, 2 at a line that is no row, and 3 if reading or writing fails, or if it is
//! out of memory.
#![tactic(auto)]

use frame_replay::trace::Traces;
use line_text::streams::buffered;
use replay_report::replay::replay;
use std::io::Lock;
use std::process::ExitCode;

fn main(rt: HostRuntime) -> ExitCode {
    let alloc = rt.alloc();
    let Ok((mut input, mut output)) = buffered(alloc, rt.reader(), rt.stdout().lock()) else {
        return ExitCode::from(3);
    };
    let mut traces = Traces::new(alloc);
    let report = replay(alloc, &mut traces, &mut input, &mut output);
    traces.finish();
    ExitCode::from(report.verdict.status())
}
