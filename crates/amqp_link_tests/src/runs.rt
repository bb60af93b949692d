//! Lists of calls that a pair runs by itself.
use crate::assertions::{assert_equal, assert_equal_at, assert_holds_at};
use crate::script::{
    CUT_OFF, Call, RESUMED, SENT_AGAIN, Sample, Seen, TWELVE, WITHDRAWN, new_sample,
};
use amqp_link::pair::{Answer, Event, Pair, PairError};
use amqp_link::{DeliveryTag, Fate, Payload};
use std::alloc::{AllocError, Global};
use std::process::Abort;

fn event(call: Call, sample: &Sample) -> Result<Event, AllocError> {
    Ok(match call {
        Call::Attach(limit) => Event::Attach(limit),
        Call::Grant(credit) => Event::Grant(credit),
        Call::Send => Event::Send(sample.payload.clone()?),
        Call::Arrive(id) => Event::Arrive(id),
        Call::Cut => Event::Cut,
        Call::ResumeNext => Event::ResumeNext,
        Call::PutBackNext => Event::PutBackNext,
        Call::HandOut => Event::HandOut(sample.tag.clone()?),
        Call::Settle => Event::Settle(sample.tag.clone()?),
        Call::Withdraw => Event::Withdraw(sample.tag.clone()?),
    })
}

fn events(
    alloc: Global,
    calls: &[(Call, Result<Seen, PairError>)],
    sample: &Sample,
) -> Result<Vec<Event>, AllocError> {
    let mut events = Vec::new(alloc);
    for (call, _) in calls {
        events.push(event(*call, sample)?)?;
    }
    Ok(events)
}

fn seen(answer: &Answer, sample: &Sample) -> Seen {
    match answer {
        Answer::Attached(count) => Seen::Count(*count),
        Answer::Granted(credit) => Seen::Credit(*credit),
        Answer::Sent { frames, .. } => Seen::Count(*frames),
        Answer::Arrived {
            section_number,
            section_offset,
            whole,
            ..
        } => Seen::Place(*section_number, *section_offset, *whole),
        Answer::Cut | Answer::Settled | Answer::Withdrawn => Seen::Done,
        Answer::Aborted(tag) => Seen::Aborted(*tag == sample.tag),
        Answer::Resumed { frames, resume, .. } => Seen::Resumed(*frames, *resume),
        Answer::PutBack(tag) => Seen::Back(*tag == sample.tag),
        Answer::HandedOut(delivery) => {
            Seen::HandedOut(delivery.body().0.as_slice() == TWELVE.as_slice())
        }
    }
}

fn seen_of(answer: &Result<Answer, PairError>, sample: &Sample) -> Result<Seen, PairError> {
    match answer {
        Ok(answer) => Ok(seen(answer, sample)),
        Err(error) => Err(*error),
    }
}

// Runs the events from this one on: how many were done, up to one that is out of memory.
fn run_from(
    rt: &impl Abort,
    pair: &mut Pair,
    events: &[Event],
    sample: &Sample,
    calls: &[(Call, Result<Seen, PairError>)],
) -> usize {
    let (answers, finished) = pair.run(events);
    let mut refused = 0;
    for (answer, (call, wanted)) in answers.iter().zip(calls) {
        let seen = seen_of(answer, sample);
        if seen == Err(PairError::OutOfMemory) {
            refused = 1;
        } else {
            assert_equal_at(rt, &seen, wanted, &call);
        }
    }
    let done = answers.len().saturating_sub(refused);
    assert_equal_at(rt, &finished, &(done == events.len()), &"all is done");
    drop(answers);
    done
}

// Runs a script; if it stops, it is run on from where it did.
fn expect_run(
    rt: &(impl Abort + AllocGlobal),
    pair: &mut Pair,
    sample: &Sample,
    calls: &[(Call, Result<Seen, PairError>)],
) {
    let all = events(rt.alloc(), calls, sample);
    let all = all.or_else(|_| events(rt.alloc(), calls, sample));
    let all = all.expect(rt, "memory");
    let done = run_from(rt, pair, &all, sample, calls);
    if done < all.len() {
        let left = all.get(done..).expect(rt, "events are left");
        let wanted = calls.get(done..).expect(rt, "so are their answers");
        let more = run_from(rt, pair, left, sample, wanted);
        assert_equal_at(rt, &more, &left.len(), &"one growth was refused");
    }
    drop(all);
}

// With one growth refused, whichever it is, the answers are those of a run where none is.
#[test]
fn scripts_run_to_their_end(rt: HostRuntime) {
    let sample = new_sample(&rt);
    let pair = Pair::new(rt.alloc(), 0).or_else(|_| Pair::new(rt.alloc(), 0));
    let mut pair = pair.expect(&rt, "memory");
    expect_run(&rt, &mut pair, &sample, CUT_OFF.as_slice());
    expect_run(&rt, &mut pair, &sample, SENT_AGAIN.as_slice());
    drop(pair);
    let pair = Pair::new(rt.alloc(), 0).or_else(|_| Pair::new(rt.alloc(), 0));
    let mut pair = pair.expect(&rt, "memory");
    expect_run(&rt, &mut pair, &sample, RESUMED.as_slice());
    drop(pair);
    let pair = Pair::new(rt.alloc(), 0).or_else(|_| Pair::new(rt.alloc(), 0));
    let mut pair = pair.expect(&rt, "memory");
    expect_run(&rt, &mut pair, &sample, WITHDRAWN.as_slice());
    drop(pair);
    drop(sample);
}

// A delivery of three bytes from its grant to its settlement.
fn add_delivery(alloc: Global, events: &mut Vec<Event>, number: u32) -> Result<(), AllocError> {
    let tag = DeliveryTag::from(number.to_be_bytes().to_vec(alloc)?);
    events.push(Event::Grant(1))?;
    events.push(Event::Send(Payload::copy_from_slice(alloc, &[1, 2, 3])?))?;
    events.push(Event::Arrive(number))?;
    events.push(Event::HandOut(tag.clone()?))?;
    events.push(Event::Settle(tag))?;
    Ok(())
}

fn many_deliveries(alloc: Global, count: u32) -> Result<Vec<Event>, AllocError> {
    let mut events = Vec::new(alloc);
    events.push(Event::Attach(64))?;
    for number in 0..count {
        add_delivery(alloc, &mut events, number)?;
    }
    Ok(events)
}

#[test]
fn ten_thousand_events(rt: HostRuntime) {
    let mut pair = Pair::new(rt.alloc(), 0).expect(&rt, "memory");
    let events = many_deliveries(rt.alloc(), 2000).expect(&rt, "memory");
    let (answers, finished) = pair.run(&events);
    assert_holds_at(&rt, finished, &"all is done");
    assert_equal(&rt, &answers.len(), &10_001);
    let done = answers.iter().filter(|answer| answer.is_ok()).count();
    assert_equal_at(&rt, &done, &10_001, &"none is refused");
    let last = matches!(pair.ledger().fate(1999), Some(Fate::Resolved(_)));
    assert_holds_at(&rt, last, &"the last delivery is settled");
    let none = pair.ledger().fate(2000).is_none();
    assert_holds_at(&rt, none, &"there are no more registrations");
    drop((answers, events));
    drop(pair);
}
