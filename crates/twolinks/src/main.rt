//! Sends a message of several frames over a link whose connection is lost on the way: once both endpoints are attached again
//! the rest is sent, and the receiver takes the whole message and accepts it.
//!
//! Both endpoints are in this program, with a session of a few lines between them. The exit status is 0, or 1 if it is out of
//! memory or writing fails.
#![tactic(auto)]

mod links;
mod session;

use crate::links::{
    ToResume, accept, arrive, attach, grant, lose_session, new_receiver, new_sender, resume, send,
    take,
};
use crate::session::Session;
use amqp_link::types::Target;
use amqp_link::{DeliveryState, DeliveryTag, Fate, Inbox, LinkFrame, OutcomeLedger, Payload};
use program_support::{Refused, arrival_word};
use std::alloc::Global;
use std::io::{Lock, Write};
use std::process::ExitCode;

// A message as it is encoded: one section of data, with 85 bytes of text.
const MESSAGE: &[u8] =
    b"\x00\x53\x75\xa0\x55Dear Sir, this letter takes three frames. The connection may be lost after each. Ann.";

// Frames arrive, up to so many; those after them are lost. The tag of the delivery that they complete.
fn arrive_some<O: Write>(
    output: &mut O,
    session: &mut Session,
    receiver: &mut Inbox<Target>,
    frames: Vec<LinkFrame>,
    count: usize,
) -> Result<Option<DeliveryTag>, Refused> {
    let (mut arrived, mut complete) = (0, None);
    for frame in frames {
        if arrived < count {
            let came = arrive(session, receiver, frame)?;
            let word = arrival_word(came.arrival);
            writeln!(output, "  a frame arrives: {word}")?;
            complete = came.tag;
            arrived += 1;
        }
    }
    Ok(complete)
}

// The message is sent, and its connection is lost after the first frame.
fn send_and_lose<O: Write>(
    alloc: Global,
    output: &mut O,
    sender: &mut OutcomeLedger<Target>,
    receiver: &mut Inbox<Target>,
) -> Result<(), Refused> {
    let mut session = Session::new(alloc);
    drop(attach(alloc, sender, receiver)?);
    grant(sender, receiver, 1)?;
    let payload = Payload::copy_from_slice(alloc, MESSAGE)?;
    let frames = send(sender, &payload)?;
    writeln!(output, "sent in {} frames", frames.len())?;
    drop(arrive_some(output, &mut session, receiver, frames, 1)?);
    lose_session(sender, receiver);
    writeln!(output, "the connection is lost")?;
    Ok(())
}

fn word_of(fate: Option<&Fate>) -> &'static str {
    match fate {
        Some(Fate::Pending) => "pending",
        Some(Fate::HandedOut) => "returned to be sent again",
        Some(Fate::Resolved(Ok(Some(DeliveryState::Accepted)))) => "accepted",
        _ => "other",
    }
}

// The receiver takes the message, and accepts it.
fn take_and_accept<O: Write>(
    output: &mut O,
    session: &Session,
    sender: &mut OutcomeLedger<Target>,
    receiver: &mut Inbox<Target>,
    tag: &DeliveryTag,
) -> Result<(), Refused> {
    let delivery = take(receiver, tag)?;
    let text = str::from_utf8(delivery.body().0.as_slice()).unwrap_or("no text");
    writeln!(output, "taken: {text}")?;
    accept(session, sender, receiver, tag)?;
    for number in 0..2 {
        writeln!(
            output,
            "registration {number}: {}",
            word_of(sender.fate(number))
        )?;
    }
    Ok(())
}

// The first delivery of the list is sent again, and taken if it is complete then.
fn resume_first<O: Write>(
    output: &mut O,
    session: &mut Session,
    sender: &mut OutcomeLedger<Target>,
    receiver: &mut Inbox<Target>,
    list: &mut ToResume,
) -> Result<(), Refused> {
    let Some(frames) = resume(sender, list)? else {
        return Ok(());
    };
    writeln!(output, "resumed in {} frames", frames.len())?;
    let count = frames.len();
    if let Some(tag) = arrive_some(output, session, receiver, frames, count)? {
        take_and_accept(output, session, sender, receiver, &tag)?;
    }
    Ok(())
}

// After a new attach each delivery of the list is sent again.
fn resume_all<O: Write>(
    alloc: Global,
    output: &mut O,
    sender: &mut OutcomeLedger<Target>,
    receiver: &mut Inbox<Target>,
) -> Result<(), Refused> {
    let mut session = Session::new(alloc);
    let mut list: ToResume = attach(alloc, sender, receiver)?;
    for _ in 0..list.len() {
        resume_first(output, &mut session, sender, receiver, &mut list)?;
    }
    Ok(())
}

fn tell<O: Write>(alloc: Global, output: &mut O) -> Result<(), Refused> {
    let mut sender = new_sender(alloc)?;
    let mut receiver = new_receiver(alloc)?;
    send_and_lose(alloc, output, &mut sender, &mut receiver)?;
    resume_all(alloc, output, &mut sender, &mut receiver)?;
    Ok(output.flush()?)
}

fn main(rt: HostRuntime) -> ExitCode {
    let mut output = rt.stdout().lock();
    match tell(rt.alloc(), &mut output) {
        Ok(()) => ExitCode::SUCCESS,
        Err(Refused) => ExitCode::FAILURE,
    }
}
