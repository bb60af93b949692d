//! The smallest frame limits, at both ends of the delivery-count, and a long run at a small one.
use crate::assertions::{assert_equal, assert_equal_at};
use crate::script::TWELVE;
use amqp_link::pair::{OrAborted, Pair, PairError};
use amqp_link::{DeliveryState, DeliveryTag, Fate, LinkExt, Payload};
use std::process::Abort;

// The calls of a pair stand in functions without a contract: each call in a test is proved with all that the
// contracts of those before it say.

fn new_pair(rt: &(impl Abort + AllocGlobal), initial_delivery_count: u32) -> Pair {
    Pair::new(rt.alloc(), initial_delivery_count).expect(rt, "memory")
}

fn attach(pair: &mut Pair, limit: u32) -> Result<usize, PairError> {
    pair.attach(limit)
}

fn grant(pair: &mut Pair, credit: u32) -> Result<u32, PairError> {
    pair.grant(credit)
}

// Whether a send takes the tag of this count, and how many transfers it has.
fn send(pair: &mut Pair, payload: &Payload, count: u32) -> Result<(bool, usize), PairError> {
    let sent = pair.send(payload)?;
    let is_tag = sent.tag.as_bytes() == count.to_be_bytes().as_slice();
    let frames = sent.frames;
    drop(sent);
    Ok((is_tag, frames))
}

// How many bytes have arrived of the delivery whose transfer arrives, and whether it is complete.
fn arrive(pair: &mut Pair, id: u32) -> Result<Option<(u64, bool)>, PairError> {
    Ok(match pair.arrive(id)? {
        OrAborted::Answer(came) => Some((came.section_offset, came.whole)),
        OrAborted::Aborted(_) => None,
    })
}

// How many transfers are sent of the next delivery, and whether it is resumed.
fn resume(pair: &mut Pair) -> Result<Option<(usize, bool)>, PairError> {
    Ok(match pair.resume_next()? {
        OrAborted::Answer(resumed) => Some((resumed.frames, resumed.resume)),
        OrAborted::Aborted(_) => None,
    })
}

fn cut(pair: &mut Pair) -> Result<(), PairError> {
    pair.cut()
}

fn twelve(rt: &(impl Abort + AllocGlobal)) -> Payload {
    Payload::copy_from_slice(rt.alloc(), &TWELVE).expect(rt, "memory")
}

// An attach at count 0 has 25 bytes behind the four of the frame header, and so has a transfer's first frame without a
// payload: 29 bytes leave room for four more in each of the frames.
#[test]
fn frames_of_29_bytes_carry_four(rt: HostRuntime) {
    let bytes = twelve(&rt);
    let mut pair = new_pair(&rt, 0);
    assert_equal(&rt, &attach(&mut pair, 28), &Err(PairError::LimitTooSmall));
    assert_equal(&rt, &attach(&mut pair, 29), &Ok(0));
    assert_equal(&rt, &grant(&mut pair, 1), &Ok(1));
    assert_equal(&rt, &send(&mut pair, &bytes, 0), &Ok((true, 3)));
    for (held, is_whole) in [(4, false), (8, false), (12, true)] {
        let came = arrive(&mut pair, 7);
        assert_equal_at(&rt, &came, &Ok(Some((held, is_whole))), &held);
    }
    drop((pair, bytes));
}

// At the largest count an attach takes three bytes more.
fn pair_at_the_largest_count(rt: &(impl Abort + AllocGlobal)) -> Pair {
    let mut pair = new_pair(rt, u32::MAX);
    assert_equal(rt, &attach(&mut pair, 31), &Err(PairError::LimitTooSmall));
    assert_equal(rt, &attach(&mut pair, 32), &Ok(0));
    assert_equal(rt, &grant(&mut pair, 2), &Ok(2));
    pair
}

#[test]
fn frames_of_32_bytes_carry_seven(rt: HostRuntime) {
    let bytes = twelve(&rt);
    let mut pair = pair_at_the_largest_count(&rt);
    assert_equal(&rt, &send(&mut pair, &bytes, u32::MAX), &Ok((true, 2)));
    assert_equal(&rt, &arrive(&mut pair, 7), &Ok(Some((7, false))));
    assert_equal(&rt, &arrive(&mut pair, 7), &Ok(Some((12, true))));
    drop((pair, bytes));
}

// The sender's attach, which lists both deliveries, takes 41 bytes behind the frame header.
#[test]
fn two_deliveries_past_the_wrap_are_sent_again(rt: HostRuntime) {
    let bytes = twelve(&rt);
    let mut pair = pair_at_the_largest_count(&rt);
    assert_equal(&rt, &send(&mut pair, &bytes, u32::MAX), &Ok((true, 2)));
    assert_equal(&rt, &send(&mut pair, &bytes, 0), &Ok((true, 2)));
    assert_equal(&rt, &cut(&mut pair), &Ok(()));
    assert_equal(&rt, &attach(&mut pair, 44), &Err(PairError::LimitTooSmall));
    assert_equal(&rt, &attach(&mut pair, 45), &Ok(2));
    assert_equal(&rt, &resume(&mut pair), &Ok(Some((1, false))));
    assert_equal(&rt, &resume(&mut pair), &Ok(Some((1, false))));
    for id in 0..2 {
        assert_equal_at(&rt, &arrive(&mut pair, id), &Ok(Some((12, true))), &id);
    }
    drop((pair, bytes));
}

// The count of the delivery that is registered again.
fn put_back(pair: &mut Pair) -> Result<Option<u8>, PairError> {
    let tag = pair.put_back_next()?;
    let count = tag.as_bytes().last().copied();
    drop(tag);
    Ok(count)
}

// Three deliveries are cut off, of which the first has arrived in part: each is put back, and listed by the next attach.
#[test]
fn three_deliveries_are_put_back(rt: HostRuntime) {
    let bytes = twelve(&rt);
    let mut pair = new_pair(&rt, 0);
    assert_equal(&rt, &attach(&mut pair, 30), &Ok(0));
    assert_equal(&rt, &grant(&mut pair, 3), &Ok(3));
    for count in 0..3 {
        assert_equal_at(&rt, &send(&mut pair, &bytes, count), &Ok((true, 3)), &count);
    }
    assert_equal(&rt, &arrive(&mut pair, 0), &Ok(Some((5, false))));
    assert_equal(&rt, &cut(&mut pair), &Ok(()));
    assert_equal(&rt, &attach(&mut pair, 80), &Ok(3));
    for count in 0..3 {
        assert_equal_at(&rt, &put_back(&mut pair), &Ok(Some(count)), &count);
    }
    assert_equal(&rt, &cut(&mut pair), &Ok(()));
    assert_equal(&rt, &attach(&mut pair, 80), &Ok(3));
    for is_resumed in [true, false, false] {
        assert_equal(&rt, &resume(&mut pair), &Ok(Some((1, is_resumed))));
    }
    drop((pair, bytes));
}

// Sends one byte as the delivery of this count, which arrives and is settled.
fn send_and_settle(
    rt: &(impl Abort + AllocGlobal),
    pair: &mut Pair,
    payload: &Payload,
    count: u32,
) {
    assert_equal_at(rt, &send(pair, payload, count), &Ok((true, 1)), &count);
    assert_equal_at(rt, &arrive(pair, count), &Ok(Some((1, true))), &count);
    let tag = DeliveryTag::copied(rt.alloc(), &count.to_be_bytes()).expect(rt, "memory");
    let settled = pair.settle(&tag);
    drop(tag);
    assert_equal_at(rt, &settled, &Ok(()), &count);
}

fn is_accepted(pair: &Pair, number: usize) -> bool {
    let Some(Fate::Resolved(Ok(Some(state)))) = pair.ledger().fate(number) else {
        return false;
    };
    matches!(state, DeliveryState::Accepted)
}

// The receiver's user takes none of the 300 deliveries, so that its count stays, and 301 leave one credit.
#[test]
fn three_hundred_deliveries_and_a_long_one(rt: HostRuntime) {
    let byte = Payload::copy_from_slice(rt.alloc(), &[1]).expect(&rt, "memory");
    let mut pair = new_pair(&rt, 0);
    assert_equal(&rt, &attach(&mut pair, 30), &Ok(0));
    assert_equal(&rt, &grant(&mut pair, 300), &Ok(300));
    for count in 0..300 {
        send_and_settle(&rt, &mut pair, &byte, count);
    }
    for number in 0..300 {
        assert_equal_at(&rt, &is_accepted(&pair, number), &true, &number);
    }
    assert_equal(&rt, &grant(&mut pair, 301), &Ok(1));
    expect_long_delivery(&rt, &mut pair);
    drop((pair, byte));
}

fn ten_thousand(rt: &(impl Abort + AllocGlobal)) -> Payload {
    let mut bytes = Vec::new(rt.alloc());
    for _ in 0..10_000 {
        bytes.push(7_u8).expect(rt, "memory");
    }
    let payload = Payload::copy_from_slice(rt.alloc(), bytes.as_slice()).expect(rt, "memory");
    drop(bytes);
    payload
}

// Ten thousand bytes in frames that carry five.
fn expect_long_delivery(rt: &(impl Abort + AllocGlobal), pair: &mut Pair) {
    let payload = ten_thousand(rt);
    assert_equal(rt, &send(pair, &payload, 300), &Ok((true, 2000)));
    for number in 1..2000 {
        let came = arrive(pair, 300);
        assert_equal_at(rt, &came, &Ok(Some((number * 5, false))), &number);
    }
    assert_equal(rt, &arrive(pair, 300), &Ok(Some((10_000, true))));
    drop(payload);
}
