//! Runs a broker with two incoming and two outgoing links through two lost sessions, and prints each call with what it
//! returns, one a line, and how many messages are queued, under way, and may still come after it.
//!
//! The frames are those of four peers, written by hand. A call that is out of memory is made once more. The exit status is 0, or 1
//! if that is out of memory, too, or writing fails.
#![tactic(auto)]

mod answers;
mod links;
mod peers;
mod receiving;
mod sending;
mod steps;
mod words;

use crate::answers::Answer;
use crate::links::new_broker;
use crate::receiving::receive;
use crate::sending::send;
use crate::steps::{SCENES, Step};
use crate::words::{line_of, write_heads, write_title};
use amqp_link_uses::broker::Broker;
use program_support::Refused;
use std::alloc::Global;
use std::io::{Lock, Write};
use std::process::ExitCode;

fn perform(alloc: Global, broker: &mut Broker, step: Step) -> Result<Answer, Refused> {
    match step {
        Step::Incoming(link, call) => receive(alloc, broker, link, call),
        Step::Outgoing(link, call) => send(alloc, broker, link, call),
    }
}

// A step that is out of memory has changed nothing: it is made once more.
fn perform_again(alloc: Global, broker: &mut Broker, step: Step) -> Result<Answer, Refused> {
    match perform(alloc, broker, step) {
        Ok(answer) => Ok(answer),
        Err(Refused) => perform(alloc, broker, step),
    }
}

fn line_again(
    alloc: Global,
    broker: &Broker,
    step: Step,
    answer: &Answer,
) -> Result<String, Refused> {
    match line_of(alloc, broker, step, answer) {
        Ok(line) => Ok(line),
        Err(Refused) => line_of(alloc, broker, step, answer),
    }
}

fn tell_one<O: Write>(
    alloc: Global,
    output: &mut O,
    broker: &mut Broker,
    step: Step,
) -> Result<(), Refused> {
    let answer = perform_again(alloc, broker, step)?;
    let line = line_again(alloc, broker, step, &answer);
    drop(answer);
    let line = line?;
    let written = writeln!(output, "{line}");
    drop(line);
    Ok(written?)
}

fn new_broker_again(alloc: Global) -> Result<Broker, Refused> {
    match new_broker(alloc) {
        Ok(broker) => Ok(broker),
        Err(Refused) => new_broker(alloc),
    }
}

fn tell<O: Write>(alloc: Global, output: &mut O) -> Result<(), Refused> {
    let mut broker = new_broker_again(alloc)?;
    write_heads(output)?;
    for scene in SCENES {
        write_title(output, scene.title)?;
        for step in scene.steps {
            tell_one(alloc, output, &mut broker, *step)?;
        }
    }
    drop(broker);
    Ok(output.flush()?)
}

fn main(rt: HostRuntime) -> ExitCode {
    let mut output = rt.stdout().lock();
    match tell(rt.alloc(), &mut output) {
        Ok(()) => ExitCode::SUCCESS,
        Err(Refused) => ExitCode::FAILURE,
    }
}
