//! Drives link endpoints by the frames of wrong and hostile peers, and prints what was reached, one count a line.
//!
//! The arguments are the seed and the number of frames; the same two print the same. The exit status is 0, or 1 if a check has
//! failed (it prints which, and where); 2 at other arguments; and 3 if it is out of memory or writing fails.
#![tactic(auto)]

mod arguments;
mod report;
#[cfg(test)]
mod tests;

use crate::arguments::arguments_of;
use crate::report::{write_broken, write_reached};
use hostile_frames::{Broken, run};
use std::io::{self, Lock};
use std::process::ExitCode;

const FAILED: u8 = 1;

const USAGE: u8 = 2;

const STOPPED: u8 = 3;

fn tell(rt: &HostRuntime) -> io::Result<u8> {
    let Some(arguments) = arguments_of(rt)? else {
        eprintln!(rt; "usage: hostilerun SEED FRAMES")?;
        return Ok(USAGE);
    };
    let mut output = rt.stdout().lock();
    match run(rt.alloc(), arguments.seed, arguments.frames) {
        Ok(reached) => {
            write_reached(&mut output, &reached)?;
            Ok(0)
        }
        Err(Broken::OutOfMemory) => Ok(STOPPED),
        Err(broken) => {
            write_broken(&mut output, broken)?;
            Ok(FAILED)
        }
    }
}

fn main(rt: HostRuntime) -> ExitCode {
    match tell(&rt) {
        Ok(status) => ExitCode::from(status),
        Err(error) => {
            drop(error);
            ExitCode::from(STOPPED)
        }
    }
}
