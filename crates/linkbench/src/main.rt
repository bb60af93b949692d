//! Measures what the calls of the link layer cost.
//!
//! Without arguments it does each work once at a small size, and prints what the work did. With the argument
//! `time` it prints how many nanoseconds an operation of each work takes, at several sizes. The exit status is
//! 0; 2 at other arguments; and 1 if writing or reading the clock fails, or if it is out of memory.
#![tactic(auto)]

mod endpoints;
mod exchanging;
mod inboxes;
mod measured;
mod merging;
mod pairs;
mod payloads;
mod receiving;
mod refused;
mod releasing;
mod report;
mod scanning;
mod sending;
mod settling;
mod tasks;
mod unread;

use crate::refused::Refused;
use crate::report::{show, time};
use std::env;
use std::io::Lock;
use std::process::ExitCode;

// What is asked for by the arguments.
#[derive(Clone, Copy)]
enum Mode {
    Show,
    Time,
    Unknown,
}

fn mode_of(rt: &HostRuntime) -> Result<Mode, Refused> {
    let mut mode = Mode::Show;
    for word in env::args(rt)?.skip(1) {
        mode = match (mode, word.as_str()) {
            (Mode::Show, "time") => Mode::Time,
            _ => Mode::Unknown,
        };
        drop(word);
    }
    Ok(mode)
}

fn run(rt: &HostRuntime) -> Result<ExitCode, Refused> {
    let mut output = rt.stdout().lock();
    match mode_of(rt)? {
        Mode::Show => show(rt, rt.alloc(), &mut output)?,
        Mode::Time => time(rt, rt.alloc(), &mut output)?,
        Mode::Unknown => {
            eprintln!(rt; "usage: linkbench [time]")?;
            return Ok(ExitCode::from(2));
        }
    }
    Ok(ExitCode::SUCCESS)
}

fn main(rt: HostRuntime) -> ExitCode {
    run(&rt).unwrap_or(ExitCode::FAILURE)
}
