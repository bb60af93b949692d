//! The run of `crates/twolinks`, through the exports, with the same output.
use super::links::{Links, arrive, attach, grant, new_links, send};
use super::{Refused, accepted, done, state};
use crate::frames::{amqp_frames_count, amqp_frames_disposition};
use crate::link::amqp_link_on_session_lost;
use crate::objects::amqp_free;
use crate::outcomes::Outcome;
use crate::receiver::arriving::{ARRIVAL_BEGUN, ARRIVAL_COMPLETE, ARRIVAL_CONTINUED};
use crate::receiver::disposing::amqp_receiver_dispose;
use crate::receiver::taking::{amqp_delivery_message, amqp_receiver_take};
use crate::sender::resuming::{RESUME, amqp_resuming_at, amqp_resuming_count, amqp_sender_resume};
use crate::sender::settling::{
    FATE_HANDED_OUT, FATE_RESOLVED, amqp_sender_fate, amqp_sender_on_disposition,
};
use amqp_link_flat::delivery_state::{ACCEPTED, NO_STATE};
use amqp_link_flat::disposition::Disposition;
use amqp_link_flat::numbers::{SETTLED, SETTLED_BY_MODE};
use amqp_link_flat::status::OUT_OF_MEMORY;
use amqp_link_object::Object;
use std::alloc::Global;

// A message as it is encoded: one section of data, with 85 bytes of text.
const MESSAGE: &[u8] =
    b"\x00\x53\x75\xa0\x55Dear Sir, this letter takes three frames. The connection may be lost after each. Ann.";

// What the program prints.
const PRINTED: &str = "sent in 3 frames
  a frame arrives: begun
the connection is lost
resumed in 2 frames
  a frame arrives: continued
  a frame arrives: complete
taken: Dear Sir, this letter takes three frames. The connection may be lost after each. Ann.
registration 0: returned to be sent again
registration 1: accepted
";

// A text with room for all that is printed, so that no line allocates.
fn empty_text(alloc: Global) -> Result<String, Refused> {
    match String::with_capacity(alloc, 500) {
        Ok(text) => Ok(text),
        Err(_) => Ok(String::with_capacity(alloc, 500)?),
    }
}

fn word_of(arrival: u32) -> &'static str {
    if arrival == ARRIVAL_BEGUN {
        return "begun";
    }
    if arrival == ARRIVAL_CONTINUED {
        return "continued";
    }
    if arrival == ARRIVAL_COMPLETE {
        return "complete";
    }
    "other"
}

// A frame arrives, and what it has made is printed.
fn show_arrival(
    alloc: Global,
    links: &mut Links,
    frames: &mut Object,
    number: usize,
    printed: &mut String,
) -> Result<(), Refused> {
    let word = word_of(arrive(alloc, links, frames, number)?);
    writeln!(printed, "  a frame arrives: {word}")?;
    Ok(())
}

// The message is sent, and its connection is lost after the first frame.
fn send_and_lose(alloc: Global, links: &mut Links, printed: &mut String) -> Result<(), Refused> {
    let (mut resuming, mut frames) = (Object::empty(alloc), Object::empty(alloc));
    drop(attach(alloc, links, &mut resuming)?);
    grant(alloc, links, 1)?;
    send(alloc, links, MESSAGE, SETTLED_BY_MODE, &mut frames)?;
    let count = amqp_frames_count(alloc, &mut frames);
    writeln!(printed, "sent in {count} frames")?;
    show_arrival(alloc, links, &mut frames, 0, printed)?;
    again!(amqp_link_on_session_lost(alloc, &mut links.sender))?;
    again!(amqp_link_on_session_lost(alloc, &mut links.receiver))?;
    writeln!(printed, "the connection is lost")?;
    Ok(())
}

// The receiver takes the message.
fn take(alloc: Global, links: &mut Links, printed: &mut String) -> Result<(), Refused> {
    let mut delivery = Object::empty(alloc);
    let (tag, tag_size) = (links.tag, links.tag_size);
    let name = tag.get(..tag_size).unwrap_or(&[]);
    again!(amqp_receiver_take(alloc, &mut links.receiver, name, &mut delivery,))?;
    let (mut message, mut size) = ([0; 100], 0);
    again!(amqp_delivery_message(alloc, &mut delivery, &mut message, &mut size))?;
    let words = match message.get(5..size) {
        Some(bytes) => str::from_utf8(bytes).unwrap_or("no text"),
        None => "no text",
    };
    writeln!(printed, "taken: {words}")?;
    Ok(())
}

// The receiver accepts the message, and the sender takes that.
fn accept(alloc: Global, links: &mut Links) -> Result<(), Refused> {
    let (mut frames, mut ended) = (Object::empty(alloc), Object::empty(alloc));
    let (tag, tag_size) = (links.tag, links.tag_size);
    let name = tag.get(..tag_size).unwrap_or(&[]);
    let receiver = &mut links.receiver;
    again!(amqp_receiver_dispose(
        alloc,
        receiver,
        name,
        SETTLED,
        &accepted(),
        &[],
        &[],
        false,
        &mut frames,
    ))?;
    let mut sent = Disposition {
        state: state(NO_STATE),
        role: 0,
        first: 0,
        last: 0,
        has_last: false,
        settled: false,
        batchable: false,
    };
    again!(amqp_frames_disposition(alloc, &mut frames, 0, &mut sent))?;
    let mut echo = false;
    let sender = &mut links.sender;
    again!(amqp_sender_on_disposition(
        alloc,
        sender,
        name,
        sent.settled,
        &sent.state,
        &[],
        &[],
        &mut echo,
        &mut ended,
    ))
}

// What became of a registration, in words.
fn fate_word(alloc: Global, links: &mut Links, number: usize) -> Result<&'static str, Refused> {
    let mut kind = 0;
    let mut outcome = Outcome {
        state: state(NO_STATE),
        failed: 0,
    };
    again!(amqp_sender_fate(alloc, &mut links.sender, number, &mut kind, &mut outcome,))?;
    if kind == FATE_HANDED_OUT {
        return Ok("returned to be sent again");
    }
    if kind == FATE_RESOLVED && outcome.failed == 0 && outcome.state.kind == ACCEPTED {
        return Ok("accepted");
    }
    Ok("other")
}

// The rest of a delivery is sent, and the receiver takes and accepts it.
fn resume_first(
    alloc: Global,
    links: &mut Links,
    resuming: &mut Object,
    printed: &mut String,
) -> Result<(), Refused> {
    let (mut kind, mut tag, mut size) = (0, [0; 32], 0);
    again!(amqp_resuming_at(alloc, resuming, 0, &mut kind, &mut tag, &mut size,))?;
    if kind != RESUME {
        return Err(Refused(kind));
    }
    let mut frames = Object::empty(alloc);
    again!(amqp_sender_resume(alloc, &mut links.sender, resuming, &mut frames))?;
    let sent = amqp_frames_count(alloc, &mut frames);
    writeln!(printed, "resumed in {sent} frames")?;
    for number in 0..sent {
        show_arrival(alloc, links, &mut frames, number, printed)?;
    }
    take(alloc, links, printed)?;
    accept(alloc, links)
}

// After a new attach the rest of each delivery is sent.
fn resume_all(alloc: Global, links: &mut Links, printed: &mut String) -> Result<(), Refused> {
    let mut resuming = Object::empty(alloc);
    links.next_id = 0;
    drop(attach(alloc, links, &mut resuming)?);
    let count = amqp_resuming_count(alloc, &mut resuming);
    for _ in 0..count {
        resume_first(alloc, links, &mut resuming, printed)?;
    }
    for number in 0..2 {
        let word = fate_word(alloc, links, number)?;
        writeln!(printed, "registration {number}: {word}")?;
    }
    Ok(())
}

fn run(alloc: Global) -> Result<String, Refused> {
    let mut printed = empty_text(alloc)?;
    let mut links = new_links(alloc)?;
    send_and_lose(alloc, &mut links, &mut printed)?;
    resume_all(alloc, &mut links, &mut printed)?;
    amqp_free(alloc, &mut links.sender);
    amqp_free(alloc, &mut links.receiver);
    Ok(printed)
}

#[test]
fn prints_what_the_program_prints(rt: HostRuntime) {
    match run(rt.alloc()) {
        Ok(printed) => assert_eq!(rt; printed.as_str(), PRINTED),
        Err(Refused(status)) => assert_eq!(rt; status, 0),
    }
}
