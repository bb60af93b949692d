//! The calls on an outgoing link.
use crate::answers::Answer;
use crate::peers::{flow, receiver_attach, state_of, tag_of};
use crate::steps::{Reached, Sending, Verdict};
use amqp_link::types::OutputHandle;
use amqp_link::{LinkDetach, LinkExt};
use amqp_link_uses::broker::{Broker, Forwarded, Resumed, Returned};
use program_support::{Refused, done};
use std::alloc::Global;

/// Makes the call.
pub fn send(
    alloc: Global,
    broker: &mut Broker,
    link: usize,
    call: Sending,
) -> Result<Answer, Refused> {
    match call {
        Sending::SendAttach => send_attach(broker, link),
        Sending::TakeAttach(reached) => take_attach(alloc, broker, link, reached),
        Sending::LoseSession => lose_session(broker, link),
        Sending::TakeFlow(count, credit) => take_flow(broker, link, count, credit),
        Sending::SendNext => send_next(broker, link),
        Sending::ResumeNext => resume_next(broker, link),
        Sending::TakeDisposition(tag, verdict) => take_disposition(
            alloc, broker, link, tag, verdict,
        ),
    }
}

fn send_attach(broker: &mut Broker, link: usize) -> Result<Answer, Refused> {
    let Some(outgoing) = broker.outgoing.get_mut(link) else {
        return Err(Refused);
    };
    *outgoing.ledger.output_handle_mut() = Some(OutputHandle(0));
    Ok(Answer::Frame(done(broker.send_attach(link, false))?))
}

fn take_attach(
    alloc: Global,
    broker: &mut Broker,
    link: usize,
    reached: &[Reached],
) -> Result<Answer, Refused> {
    let theirs = receiver_attach(alloc, link, reached)?;
    done(broker.on_incoming_attach(link, theirs))?;
    match broker.outgoing.get(link) {
        Some(outgoing) => Ok(Answer::ToResume(outgoing.resuming_len())),
        None => Err(Refused),
    }
}

fn lose_session(broker: &mut Broker, link: usize) -> Result<Answer, Refused> {
    let Some(outgoing) = broker.outgoing.get_mut(link) else {
        return Err(Refused);
    };
    outgoing.ledger.on_session_lost();
    Ok(Answer::Done)
}

fn take_flow(broker: &mut Broker, link: usize, count: u32, credit: u32) -> Result<Answer, Refused> {
    let Some(outgoing) = broker.outgoing.get_mut(link) else {
        return Err(Refused);
    };
    drop(done(outgoing.ledger.on_incoming_flow(flow(count, credit)))?);
    Ok(Answer::Done)
}

fn send_next(broker: &mut Broker, link: usize) -> Result<Answer, Refused> {
    let answer = match done(broker.send_next(link))? {
        Forwarded::Sent(frames) => Answer::Frames(frames),
        Forwarded::Done(frames, origin) => {
            drop(origin);
            Answer::Frames(frames)
        }
        Forwarded::CreditMissing => Answer::Words("credit missing"),
        Forwarded::NothingQueued => Answer::Words("nothing queued"),
    };
    Ok(answer)
}

fn resume_next(broker: &mut Broker, link: usize) -> Result<Answer, Refused> {
    let answer = match done(broker.resume_next(link))? {
        Resumed::Sent(frames) => Answer::Frames(frames),
        Resumed::Aborted(frame, origin) => {
            drop(origin);
            Answer::Frame(frame)
        }
        Resumed::Ended(origin) => Answer::OutcomeOf(origin),
        Resumed::PutBack => Answer::Words("put back"),
        Resumed::Nothing => Answer::Words("nothing to resume"),
    };
    Ok(answer)
}

fn take_disposition(
    alloc: Global,
    broker: &mut Broker,
    link: usize,
    bytes: &[u8],
    verdict: Verdict,
) -> Result<Answer, Refused> {
    let tag = tag_of(alloc, bytes)?;
    let taken = broker.on_incoming_disposition(link, true, state_of(verdict), &tag);
    drop(tag);
    let Returned { origin, .. } = done(taken)?;
    Ok(Answer::OutcomeOf(origin))
}
