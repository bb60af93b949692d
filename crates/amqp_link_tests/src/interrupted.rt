//! The calls of a script one by one, also if one allocation is refused, whichever it is: `.ci/allocations` refuses each
//! of them.
use crate::assertions::{assert_equal, assert_equal_at};
use crate::script::{
    CUT_OFF, Call, RESUMED, SENT_AGAIN, Sample, Seen, TWELVE, WITHDRAWN, new_sample,
};
use amqp_link::errors::LinkStateError;
use amqp_link::pair::{OrAborted, Pair, PairError};
use amqp_link::{DeliveryState, DeliveryTag, Fate, LinkExt, Whole};
use std::process::Abort;

fn arrive(pair: &mut Pair, id: u32, sample: &Sample) -> Result<Seen, PairError> {
    Ok(match pair.arrive(id)? {
        OrAborted::Answer(came) => {
            Seen::Place(came.section_number, came.section_offset, came.whole)
        }
        OrAborted::Aborted(tag) => Seen::Aborted(tag == sample.tag),
    })
}

fn resume_next(pair: &mut Pair, sample: &Sample) -> Result<Seen, PairError> {
    Ok(match pair.resume_next()? {
        OrAborted::Answer(resumed) => Seen::Resumed(resumed.frames, resumed.resume),
        OrAborted::Aborted(tag) => Seen::Aborted(tag == sample.tag),
    })
}

fn hand_out(pair: &mut Pair, tag: &DeliveryTag) -> Result<Seen, PairError> {
    let delivery = pair.hand_out::<Whole>(tag)?;
    let is_all = delivery.body().0.as_slice() == TWELVE.as_slice();
    drop(delivery);
    Ok(Seen::HandedOut(is_all))
}

fn make(pair: &mut Pair, call: Call, sample: &Sample) -> Result<Seen, PairError> {
    match call {
        Call::Attach(limit) => Ok(Seen::Count(pair.attach(limit)?)),
        Call::Grant(credit) => Ok(Seen::Credit(pair.grant(credit)?)),
        Call::Send => Ok(Seen::Count(pair.send(&sample.payload)?.frames)),
        Call::Arrive(id) => arrive(pair, id, sample),
        Call::Cut => pair.cut().map(|()| Seen::Done),
        Call::ResumeNext => resume_next(pair, sample),
        Call::PutBackNext => Ok(Seen::Back(pair.put_back_next()? == sample.tag)),
        Call::HandOut => hand_out(pair, &sample.tag),
        Call::Settle => pair.settle(&sample.tag).map(|()| Seen::Done),
        Call::Withdraw => pair.withdraw(&sample.tag).map(|()| Seen::Done),
    }
}

// What became of a registration.
#[derive(Clone, Copy, Debug, PartialEq, Eq)]
enum Shown {
    Nothing,
    Pending,
    HandedOut,
    Accepted,
    Withdrawn,
    Other,
}

fn is_accepted(outcome: &Result<Option<DeliveryState>, LinkStateError>) -> bool {
    let Ok(state) = outcome else {
        return false;
    };
    let Some(state) = state else {
        return false;
    };
    matches!(state, DeliveryState::Accepted)
}

fn fate_shown(fate: Option<&Fate>) -> Shown {
    let Some(fate) = fate else {
        return Shown::Nothing;
    };
    match fate {
        Fate::Pending => Shown::Pending,
        Fate::Withdrawn => Shown::Withdrawn,
        Fate::HandedOut => Shown::HandedOut,
        Fate::Resolved(outcome) if is_accepted(outcome) => Shown::Accepted,
        _ => Shown::Other,
    }
}

fn fates_of(pair: &Pair) -> [Shown; 4] {
    let ledger = pair.ledger();
    [
        fate_shown(ledger.fate(0)),
        fate_shown(ledger.fate(1)),
        fate_shown(ledger.fate(2)),
        fate_shown(ledger.fate(3)),
    ]
}

// What a pair shows: the bytes that are held of the delivery, how many the sender has pending and the receiver
// reports, both credits, and what became of each registration.
#[derive(Clone, Copy, Debug, PartialEq, Eq)]
struct Standing {
    held: Option<u64>,
    pending: usize,
    reported: usize,
    sender_credit: u32,
    receiver_credit: u32,
    fates: [Shown; 4],
}

fn standing_of(pair: &Pair, tag: &DeliveryTag) -> Standing {
    let link = pair.ledger().link();
    let receiver = pair.receiver();
    Standing {
        held: pair.held(tag).map(|held| held.accumulated_payload_size()),
        pending: link.unsettled().len(),
        reported: receiver.unsettled().len(),
        sender_credit: link.flow_state().link_credit(),
        receiver_credit: receiver.flow_state().link_credit(),
        fates: fates_of(pair),
    }
}

// Makes a call; one that is out of memory leaves what the pair shows, and is made again.
fn again(rt: &impl Abort, pair: &mut Pair, call: Call, sample: &Sample) -> Result<Seen, PairError> {
    let before = standing_of(pair, &sample.tag);
    let answer = make(pair, call, sample);
    if answer != Err(PairError::OutOfMemory) {
        return answer;
    }
    assert_equal_at(rt, &standing_of(pair, &sample.tag), &before, &call);
    make(pair, call, sample)
}

fn expect_seen(
    rt: &impl Abort,
    pair: &mut Pair,
    sample: &Sample,
    calls: &[(Call, Result<Seen, PairError>)],
) {
    for (call, wanted) in calls {
        let answer = again(rt, pair, *call, sample);
        assert_equal_at(rt, &answer, wanted, &call);
    }
}

// A new pair after these calls.
fn pair_after(
    rt: &(impl Abort + AllocGlobal),
    sample: &Sample,
    calls: &[(Call, Result<Seen, PairError>)],
) -> Pair {
    let pair = Pair::new(rt.alloc(), 0).or_else(|_| Pair::new(rt.alloc(), 0));
    let mut pair = pair.expect(rt, "memory");
    expect_seen(rt, &mut pair, sample, calls);
    pair
}

// With one growth refused, whichever it is, the answers are those of a run where none is.
#[test]
fn refused_growth_interrupts_nothing(rt: HostRuntime) {
    let sample = new_sample(&rt);
    let mut pair = pair_after(&rt, &sample, CUT_OFF.as_slice());
    expect_seen(&rt, &mut pair, &sample, SENT_AGAIN.as_slice());
    let left = standing_of(&pair, &sample.tag);
    drop(pair);
    drop(sample);
    let wanted = Standing {
        held: None,
        pending: 0,
        reported: 0,
        sender_credit: 0,
        receiver_credit: 0,
        fates: [
            Shown::HandedOut,
            Shown::HandedOut,
            Shown::Accepted,
            Shown::Nothing,
        ],
    };
    assert_equal(&rt, &left, &wanted);
}

#[test]
fn refused_growth_resumes_all_the_same(rt: HostRuntime) {
    let sample = new_sample(&rt);
    let pair = pair_after(&rt, &sample, RESUMED.as_slice());
    let left = standing_of(&pair, &sample.tag);
    let held = pair.held(&sample.tag).expect(&rt, "it has arrived");
    let id = held.performative().delivery_id;
    drop(pair);
    drop(sample);
    assert_equal_at(
        &rt,
        &id,
        &Some(8),
        &"the id of the transfer that resumed it",
    );
    assert_equal(&rt, &left.held, &Some(12));
    assert_equal(&rt, &left.fates[1], &Shown::Pending);
}

// What was withdrawn is forgotten, and no credit is spent for the transfer that aborts it.
#[test]
fn refused_growth_aborts_all_the_same(rt: HostRuntime) {
    let sample = new_sample(&rt);
    let pair = pair_after(&rt, &sample, WITHDRAWN.as_slice());
    let left = standing_of(&pair, &sample.tag);
    drop(pair);
    drop(sample);
    let wanted = Standing {
        held: None,
        pending: 0,
        reported: 0,
        sender_credit: 1,
        receiver_credit: 2,
        fates: [
            Shown::Withdrawn,
            Shown::Nothing,
            Shown::Nothing,
            Shown::Nothing,
        ],
    };
    assert_equal(&rt, &left, &wanted);
}
