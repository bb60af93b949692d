//! Takes one delivery through two interruptions at an inbox, and prints what each call returns, one a line.
//!
//! The frames are those of a peer, written by hand. A call that is refused, out of memory too, has the answer `refused`. The exit
//! status is 0; it is 1 if writing fails, or if there is no memory for the calls and their answers.
#![tactic(auto)]

mod calls;
mod words;

use crate::calls::calls;
use crate::words::write_answer;
use amqp_link::inbox::{AnswerOf, run};
use amqp_link::types::{Source, Target, Text};
use amqp_link::{Inbox, LinkParts, Whole};
use program_support::Refused;
use std::alloc::Global;
use std::io::{Lock, Write};
use std::process::ExitCode;

// A new inbox of the link "l", not attached.
fn new_inbox(alloc: Global) -> Result<Inbox<Target>, Refused> {
    let name = Text::from(String::from_str(alloc, "l")?);
    let (source, target) = (Source::default(), Target::default());
    Ok(Inbox::new(alloc, LinkParts::new(name, Some(source), Some(target), 512)))
}

// The answers to all calls.
fn answers(alloc: Global) -> Result<Vec<AnswerOf<Whole>>, Refused> {
    let calls = calls(alloc)?;
    let mut inbox = match new_inbox(alloc) {
        Ok(inbox) => inbox,
        Err(refused) => {
            drop(calls);
            return Err(refused);
        }
    };
    let answers = run(alloc, &mut inbox, calls);
    drop(inbox);
    match answers {
        Ok(answers) => Ok(answers),
        Err(calls) => {
            drop(calls);
            Err(Refused)
        }
    }
}

fn tell<O: Write>(alloc: Global, output: &mut O) -> Result<(), Refused> {
    for answer in answers(alloc)? {
        write_answer(output, answer)?;
    }
    Ok(output.flush()?)
}

fn main(rt: HostRuntime) -> ExitCode {
    let mut output = rt.stdout().lock();
    match tell(rt.alloc(), &mut output) {
        Ok(()) => ExitCode::SUCCESS,
        Err(Refused) => ExitCode::FAILURE,
    }
}
