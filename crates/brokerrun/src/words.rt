//! Steps and answers in words.
use crate::answers::Answer;
use crate::steps::{Part, Reached, Receiving, Sending, Step, Verdict};
use amqp_link::inbox::Arrival;
use amqp_link::types::{Attach, Disposition, LinkFlow};
use amqp_link::{DeliveryState, LinkFrame, LinkTransfer};
use amqp_link_uses::broker::{Broker, Origin};
use program_support::{Refused, arrival_word};
use std::alloc::Global;
use std::fmt;
use std::io::Write;

/// Writes the heads of the columns.
pub fn write_heads<O: Write>(output: &mut O) -> Result<(), Refused> {
    let (call, answer) = ("call", "answer");
    Ok(writeln!(output, "{call:<60}{answer:<46}queued  under way  free")?)
}

/// Writes the title of a scene.
pub fn write_title<O: Write>(output: &mut O, title: &str) -> Result<(), Refused> {
    Ok(writeln!(output, "{title}")?)
}

/// A line with a step, its answer, and how many messages are queued, under way and may come after it.
pub fn line_of(
    alloc: Global,
    broker: &Broker,
    step: Step,
    answer: &Answer,
) -> Result<String, Refused> {
    let call = format!(in alloc; "{step}")?;
    let answer = match format!(in alloc; "{answer}") {
        Ok(answer) => answer,
        Err(refused) => {
            drop(call);
            return Err(Refused::from(refused));
        }
    };
    let counts = [broker.queued(), under_way_in(broker), broker.free()];
    let line = joined(alloc, call.as_str(), answer.as_str(), counts);
    drop((call, answer));
    line
}

fn joined(alloc: Global, call: &str, answer: &str, counts: [usize; 3]) -> Result<String, Refused> {
    let [queued, under_way, free] = counts;
    let line = format!(in alloc; "  {call:<58}{answer:<46}{queued:>6}{under_way:>11}{free:>6}")?;
    Ok(line)
}

fn under_way_in(broker: &Broker) -> usize {
    let mut count: usize = 0;
    for outgoing in &broker.outgoing {
        count = count.saturating_add(outgoing.under_way_len());
    }
    count
}

impl fmt::Display for Step {
    fn fmt<W: fmt::Write>(&self, f: &mut fmt::Formatter<W>) -> fmt::Result {
        match self {
            Step::Incoming(link, call) => {
                write!(f, "incoming {link}: ")?;
                write_receiving(f, *call)
            }
            Step::Outgoing(link, call) => {
                write!(f, "outgoing {link}: ")?;
                write_sending(f, *call)
            }
        }
    }
}

fn write_receiving<W: fmt::Write>(f: &mut fmt::Formatter<W>, call: Receiving) -> fmt::Result {
    match call {
        Receiving::SendAttach => f.write_str("send the attach"),
        Receiving::TakeAttach(_, tags) => write!(f, "its sender attaches, unsettled {tags:?}"),
        Receiving::LoseSession => f.write_str("the session is lost"),
        Receiving::Grant(more) => write!(f, "grant {more}"),
        Receiving::TakeTransfer(part, bytes, more) => {
            write_part(f, part)?;
            let rest = if more { ", more" } else { "" };
            write!(f, " {bytes:?}{rest}")
        }
        Receiving::Take(tag) => write!(f, "take the message of {tag:?}"),
        Receiving::TakeSettled => f.write_str("take a settled message"),
        Receiving::Settle(tag) => write!(f, "settle {tag:?}"),
    }
}

fn write_part<W: fmt::Write>(f: &mut fmt::Formatter<W>, part: Part) -> fmt::Result {
    match part {
        Part::First(id, tag) => write!(f, "transfer {id}, tag {tag:?}, bytes"),
        Part::FirstSettled(id, tag) => write!(f, "transfer {id}, tag {tag:?}, settled, bytes"),
        Part::Resumed(id, tag) => write!(f, "transfer {id}, tag {tag:?}, resumed, bytes"),
        Part::Further => f.write_str("further transfer, bytes"),
    }
}

fn write_sending<W: fmt::Write>(f: &mut fmt::Formatter<W>, call: Sending) -> fmt::Result {
    match call {
        Sending::SendAttach => f.write_str("send the attach"),
        Sending::TakeAttach(reached) => write_reached(f, reached),
        Sending::LoseSession => f.write_str("the session is lost"),
        Sending::TakeFlow(_, credit) => write!(f, "its receiver grants {credit}"),
        Sending::SendNext => f.write_str("send the next message"),
        Sending::ResumeNext => f.write_str("resume the next delivery"),
        Sending::TakeDisposition(tag, verdict) => {
            let word = word_of(verdict);
            write!(f, "its receiver settles {tag:?}, {word}")
        }
    }
}

fn write_reached<W: fmt::Write>(f: &mut fmt::Formatter<W>, reached: &[Reached]) -> fmt::Result {
    f.write_str("its receiver attaches")?;
    for one in reached {
        let (tag, bytes) = (one.tag, one.bytes);
        write!(f, ", has {bytes} of {tag:?}")?;
    }
    Ok(())
}

fn word_of(verdict: Verdict) -> &'static str {
    match verdict {
        Verdict::Accepted => "accepted",
        Verdict::Rejected => "rejected",
        Verdict::Silent => "no state",
    }
}

impl fmt::Display for Answer {
    fn fmt<W: fmt::Write>(&self, f: &mut fmt::Formatter<W>) -> fmt::Result {
        match self {
            Answer::Done => f.write_str("done"),
            Answer::Frame(frame) => write_frame(f, frame),
            Answer::Frames(frames) => write_frames(f, frames.as_slice()),
            Answer::Forgotten(count) => write!(f, "attached, {count} forgotten"),
            Answer::ToResume(count) => write!(f, "attached, {count} to resume"),
            Answer::Arrived(arrival, without_credit) => write_arrived(f, *arrival, *without_credit),
            Answer::OutcomeOf(origin) => write_origin(f, origin),
            Answer::Words(words) => f.write_str(words),
            Answer::Refused(reason) => write!(f, "refused, {reason}"),
        }
    }
}

fn write_frames<W: fmt::Write>(f: &mut fmt::Formatter<W>, frames: &[LinkFrame]) -> fmt::Result {
    for (place, frame) in frames.iter().enumerate() {
        if place != 0 {
            f.write_str("; ")?;
        }
        write_frame(f, frame)?;
    }
    Ok(())
}

fn write_frame<W: fmt::Write>(f: &mut fmt::Formatter<W>, frame: &LinkFrame) -> fmt::Result {
    match frame {
        LinkFrame::Attach(attach) => write_attach(f, attach),
        LinkFrame::Flow(flow) => write_flow(f, flow),
        LinkFrame::FirstTransfer(sent) | LinkFrame::TransferContinuation(sent) => {
            write_transfer(f, sent)
        }
        LinkFrame::Disposition(disposition) => write_disposition(f, disposition),
        _ => f.write_str("another frame"),
    }
}

fn write_attach<W: fmt::Write>(f: &mut fmt::Formatter<W>, attach: &Attach) -> fmt::Result {
    let count = match &attach.unsettled {
        Some(unsettled) => unsettled.len(),
        None => 0,
    };
    write!(f, "attach, {count} unsettled")
}

fn write_flow<W: fmt::Write>(f: &mut fmt::Formatter<W>, flow: &LinkFlow) -> fmt::Result {
    let credit = flow.link_credit.unwrap_or(0);
    write!(f, "flow, credit {credit}")
}

fn write_transfer<W: fmt::Write>(f: &mut fmt::Formatter<W>, sent: &LinkTransfer) -> fmt::Result {
    f.write_str("transfer")?;
    if let Some(tag) = &sent.performative.delivery_tag {
        let bytes = tag.as_bytes();
        write!(f, " {bytes:?}")?;
    }
    if sent.performative.resume {
        f.write_str(", resumed")?;
    }
    let bytes = sent.payload.as_slice();
    write!(f, ", bytes {bytes:?}")
}

fn write_disposition<W: fmt::Write>(
    f: &mut fmt::Formatter<W>,
    disposition: &Disposition,
) -> fmt::Result {
    let id = disposition.first;
    let state = state_word(&disposition.state);
    let settled = if disposition.settled {
        "settled"
    } else {
        "not settled"
    };
    write!(f, "disposition of {id}, {state}, {settled}")
}

fn state_word(state: &Option<DeliveryState>) -> &'static str {
    match state {
        Some(DeliveryState::Accepted) => "accepted",
        Some(DeliveryState::Rejected { .. }) => "rejected",
        Some(DeliveryState::Released) => "released",
        Some(DeliveryState::Modified { .. }) => "modified",
        Some(DeliveryState::Received { .. }) => "received",
        None => "no state",
    }
}

fn write_arrived<W: fmt::Write>(
    f: &mut fmt::Formatter<W>,
    arrival: Arrival,
    without_credit: bool,
) -> fmt::Result {
    f.write_str(arrival_word(arrival))?;
    if without_credit {
        f.write_str(", without credit")?;
    }
    Ok(())
}

fn write_origin<W: fmt::Write>(f: &mut fmt::Formatter<W>, origin: &Option<Origin>) -> fmt::Result {
    let Some(origin) = origin else {
        return f.write_str("outcome of no message");
    };
    let link = origin.link;
    match &origin.tag {
        Some(tag) => {
            let bytes = tag.as_bytes();
            write!(f, "outcome of incoming {link}, tag {bytes:?}")
        }
        None => write!(f, "outcome of a settled message of incoming {link}"),
    }
}
