//! Worked values of a pair.
use crate::assertions::assert_equal;
use crate::script::{TWELVE, tag};
use amqp_link::pair::{OrAborted, Pair, PairError};
use amqp_link::types::DataBody;
use amqp_link::{DeliveryTag, LinkExt, Payload};

// The calls of a pair stand in functions without a contract: each call in a test is proved with all that the
// contracts of those before it say.

fn attach(pair: &mut Pair, limit: u32) -> Result<usize, PairError> {
    pair.attach(limit)
}

fn grant(pair: &mut Pair, credit: u32) -> Result<u32, PairError> {
    pair.grant(credit)
}

// How many transfers a send answers.
fn send(pair: &mut Pair, payload: &Payload) -> Result<usize, PairError> {
    Ok(pair.send(payload)?.frames)
}

// What an arrival answers but for its tag; none is of a transfer that aborts its delivery.
fn arrive(pair: &mut Pair, id: u32) -> Result<Option<(u32, u64, bool)>, PairError> {
    Ok(match pair.arrive(id)? {
        OrAborted::Answer(came) => Some((came.section_number, came.section_offset, came.whole)),
        OrAborted::Aborted(_) => None,
    })
}

// How many bytes are held of a delivery.
fn held_bytes(pair: &Pair, tag: &DeliveryTag) -> Option<u64> {
    Some(pair.held(tag)?.accumulated_payload_size())
}

// A message that cannot be decoded costs its credit, counts as handed out, and is settled.
#[test]
fn undecoded_delivery_is_settled(rt: HostRuntime) {
    let alloc = rt.alloc();
    let mut pair = Pair::new(alloc, 0).expect(&rt, "memory");
    let bytes = Payload::copy_from_slice(alloc, &TWELVE).expect(&rt, "memory");
    let first = tag(alloc).expect(&rt, "memory");
    assert_equal(&rt, &attach(&mut pair, 64), &Ok(0));
    assert_equal(&rt, &grant(&mut pair, 1), &Ok(1));
    assert_equal(&rt, &send(&mut pair, &bytes), &Ok(1));
    assert_equal(&rt, &arrive(&mut pair, 7), &Ok(Some((0, 12, true))));
    let decoded = pair.hand_out::<DataBody>(&first).err();
    assert_equal(&rt, &decoded, &Some(PairError::Decode));
    assert_equal(&rt, &pair.receiver().flow_state().link_credit(), &0);
    let again = pair.hand_out::<DataBody>(&first).err();
    assert_equal(&rt, &again, &Some(PairError::AlreadyHandedOut));
    assert_equal(&rt, &pair.settle(&first), &Ok(()));
    drop((pair, bytes));
    drop(first);
}

// Sends; where memory is refused nothing is under way, and the same call is made again.
fn send_again(pair: &mut Pair, payload: &Payload) -> Result<usize, PairError> {
    let sent = send(pair, payload);
    if sent == Err(PairError::OutOfMemory) && arrive(pair, 0) == Err(PairError::WireEmpty) {
        return send(pair, payload);
    }
    sent
}

// Receives; where memory is refused as much is held as before, and the same call is made again.
fn arrive_again(
    pair: &mut Pair,
    tag: &DeliveryTag,
    id: u32,
) -> Result<Option<(u32, u64, bool)>, PairError> {
    let before = held_bytes(pair, tag);
    let came = arrive(pair, id);
    if came == Err(PairError::OutOfMemory) && held_bytes(pair, tag) == before {
        return arrive(pair, id);
    }
    came
}

// Attaches; where memory is refused no other limit is taken than the one that was begun with, and the
// same call is made again.
fn attach_again(pair: &mut Pair, limit: u32) -> Result<usize, PairError> {
    let attached = attach(pair, limit);
    let refused = attached == Err(PairError::OutOfMemory);
    if refused
        && matches!(
            attach(pair, 28),
            Err(PairError::LimitTooSmall | PairError::LimitChanged)
        )
    {
        return attach(pair, limit);
    }
    attached
}

// With one growth refused, whichever it is, the answers are those of a run where none is.
#[test]
fn refused_growth_loses_nothing(rt: HostRuntime) {
    let alloc = rt.alloc();
    let first = tag(alloc).or_else(|_| tag(alloc));
    let first = first.expect(&rt, "memory");
    let bytes = Payload::copy_from_slice(alloc, &TWELVE);
    let bytes = bytes.or_else(|_| Payload::copy_from_slice(alloc, &TWELVE));
    let bytes = bytes.expect(&rt, "memory");
    let pair = Pair::new(alloc, 0).or_else(|_| Pair::new(alloc, 0));
    let mut pair = pair.expect(&rt, "memory");
    assert_equal(&rt, &attach_again(&mut pair, 30), &Ok(0));
    assert_equal(&rt, &grant(&mut pair, 1), &Ok(1));
    assert_equal(&rt, &send_again(&mut pair, &bytes), &Ok(3));
    assert_equal(
        &rt,
        &arrive_again(&mut pair, &first, 7),
        &Ok(Some((0, 5, false))),
    );
    assert_equal(
        &rt,
        &arrive_again(&mut pair, &first, 0),
        &Ok(Some((0, 10, false))),
    );
    assert_equal(
        &rt,
        &arrive_again(&mut pair, &first, 0),
        &Ok(Some((0, 12, true))),
    );
    assert_equal(&rt, &held_bytes(&pair, &first), &Some(12));
    drop((pair, bytes));
    drop(first);
}
