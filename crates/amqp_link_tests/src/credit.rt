//! Worked values of a credit run, and a walk of 1,000 calls past the wrap of delivery-counts.
use crate::assertions::{assert_equal, assert_equal_at};
use amqp_link::credit_run::{Arrival, CreditRun, CreditRunError};
use amqp_link::{LinkExt, Payload};
use std::alloc::{AllocError, Global};
use std::process::Abort;

// What arrived: of a complete delivery how many bytes it has.
#[derive(Clone, Copy, Debug, PartialEq, Eq)]
enum Seen {
    Piece,
    Completed(usize),
    Flow,
}

fn arrive(run: &mut CreditRun, id: u32) -> Result<Seen, CreditRunError> {
    match run.forward_arrives(id)? {
        Arrival::Piece => Ok(Seen::Piece),
        Arrival::Flow => Ok(Seen::Flow),
        Arrival::Completed(delivery) => {
            let size = delivery.body().0.len();
            drop(delivery);
            Ok(Seen::Completed(size))
        }
    }
}

// Whether the next transfer completes a delivery of these bytes.
fn is_completed_as(run: &mut CreditRun, id: u32, bytes: &Payload) -> Result<bool, CreditRunError> {
    let Arrival::Completed(delivery) = run.forward_arrives(id)? else {
        return Ok(false);
    };
    let is_same = delivery.body().0.as_slice() == bytes.as_slice();
    drop(delivery);
    Ok(is_same)
}

// Whether a send returns this tag, and how many transfers it has.
fn send(
    run: &mut CreditRun,
    payload: &Payload,
    tag: [u8; 4],
) -> Result<(bool, usize), CreditRunError> {
    let sent = run.send(payload, false)?;
    let is_tag = sent.tag.as_bytes() == tag.as_slice();
    let frames = sent.frames;
    drop(sent);
    Ok((is_tag, frames))
}

// The delivery-count and the link-credit of the sender, and of the receiver.
fn numbers(run: &CreditRun) -> [(u32, u32); 2] {
    let sender = run.sender().flow_state();
    let receiver = run.receiver().flow_state();
    [
        (sender.delivery_count(), sender.link_credit()),
        (receiver.delivery_count(), receiver.link_credit()),
    ]
}

// The calls of a run that have no other function here, without a contract: each call in a test is proved with all
// that the contracts of those before it say.

fn grant(run: &mut CreditRun, credit: u32, drain: bool, echo: bool) -> Result<(), CreditRunError> {
    run.grant(credit, drain, echo)
}

fn back_arrives(run: &mut CreditRun) -> Result<bool, CreditRunError> {
    run.back_arrives()
}

fn new_run(rt: &impl Abort, alloc: Global, count: u32, limit: u32) -> CreditRun {
    let run = CreditRun::new(alloc, count, limit);
    run.or_else(|_| CreditRun::new(alloc, count, limit))
        .expect(rt, "memory")
}

// Why there is no run at the largest count with this frame limit.
fn refused_at(alloc: Global, limit: u32) -> Option<CreditRunError> {
    let run = CreditRun::new(alloc, u32::MAX, limit);
    let refused = run.as_ref().err().copied();
    drop(run);
    refused
}

// Where the count takes five bytes, the sender's attach has 28, and four of the frame's header.
#[test]
fn run_needs_room_for_its_attaches(rt: HostRuntime) {
    let too_small = Some(CreditRunError::LimitTooSmall);
    assert_equal(&rt, &refused_at(rt.alloc(), 31), &too_small);
    assert_equal(&rt, &refused_at(rt.alloc(), 32), &None);
}

#[test]
fn credit_is_granted_past_the_wrap(rt: HostRuntime) {
    let alloc = rt.alloc();
    let mut run = new_run(&rt, alloc, 4294967294, 64);
    let byte = Payload::copy_from_slice(alloc, &[1]).expect(&rt, "memory");
    assert_equal(&rt, &grant(&mut run, 3, false, false), &Ok(()));
    assert_equal(
        &rt,
        &grant(&mut run, 2, false, false),
        &Err(CreditRunError::LimitLowered),
    );
    assert_equal(&rt, &back_arrives(&mut run), &Ok(false));
    assert_equal(
        &rt,
        &send(&mut run, &byte, [255, 255, 255, 254]),
        &Ok((true, 1)),
    );
    assert_equal(
        &rt,
        &send(&mut run, &byte, [255, 255, 255, 255]),
        &Ok((true, 1)),
    );
    assert_equal(&rt, &send(&mut run, &byte, [0, 0, 0, 0]), &Ok((true, 1)));
    assert_equal(
        &rt,
        &send(&mut run, &byte, [0, 0, 0, 1]),
        &Err(CreditRunError::CreditMissing),
    );
    assert_equal(&rt, &arrive(&mut run, 0), &Ok(Seen::Completed(1)));
    assert_equal(&rt, &arrive(&mut run, 1), &Ok(Seen::Completed(1)));
    assert_equal(&rt, &arrive(&mut run, 2), &Ok(Seen::Completed(1)));
    assert_equal(&rt, &numbers(&run), &[(1, 0), (1, 0)]);
    assert_equal(
        &rt,
        &grant(&mut run, 2147483648, false, false),
        &Err(CreditRunError::CreditTooLarge),
    );
    assert_equal(&rt, &grant(&mut run, 2147483647, false, false), &Ok(()));
    drop((run, byte));
}

#[test]
fn drained_credit_is_gone(rt: HostRuntime) {
    let alloc = rt.alloc();
    let mut run = new_run(&rt, alloc, 4294967294, 64);
    let byte = Payload::copy_from_slice(alloc, &[1]).expect(&rt, "memory");
    assert_equal(&rt, &grant(&mut run, 3, true, false), &Ok(()));
    assert_equal(&rt, &back_arrives(&mut run), &Ok(true));
    assert_equal(&rt, &numbers(&run), &[(1, 0), (4294967294, 3)]);
    assert_equal(&rt, &arrive(&mut run, 0), &Ok(Seen::Flow));
    assert_equal(&rt, &numbers(&run), &[(1, 0), (1, 3)]);
    assert_equal(&rt, &grant(&mut run, 2, false, false), &Ok(()));
    assert_equal(&rt, &back_arrives(&mut run), &Ok(false));
    assert_equal(&rt, &numbers(&run), &[(1, 2), (1, 2)]);
    assert_equal(&rt, &send(&mut run, &byte, [0, 0, 0, 1]), &Ok((true, 1)));
    drop((run, byte));
}

// At a limit of 64 there is room for 39 bytes beside the transfer: 79 bytes go as 39, 39 and 1.
#[test]
fn pieces_complete_a_delivery(rt: HostRuntime) {
    let alloc = rt.alloc();
    let mut run = new_run(&rt, alloc, 0, 64);
    let bytes = Payload::copy_from_slice(alloc, &[7; 79]).expect(&rt, "memory");
    assert_equal(&rt, &grant(&mut run, 1, false, false), &Ok(()));
    assert_equal(&rt, &back_arrives(&mut run), &Ok(false));
    assert_equal(&rt, &send(&mut run, &bytes, [0, 0, 0, 0]), &Ok((true, 3)));
    assert_equal(&rt, &arrive(&mut run, 5), &Ok(Seen::Piece));
    assert_equal(&rt, &arrive(&mut run, 5), &Ok(Seen::Piece));
    assert_equal(&rt, &is_completed_as(&mut run, 5, &bytes), &Ok(true));
    assert_equal(&rt, &arrive(&mut run, 5), &Err(CreditRunError::QueueEmpty));
    assert_equal(
        &rt,
        &back_arrives(&mut run),
        &Err(CreditRunError::QueueEmpty),
    );
    drop((run, bytes));
}

// What a walk has sent and completed: how many deliveries, and how many bytes.
#[derive(Clone, Copy, Debug, PartialEq, Eq)]
struct Sums {
    deliveries: u32,
    bytes: usize,
}

impl Sums {
    fn add(&mut self, bytes: usize) {
        self.deliveries = self.deliveries.wrapping_add(1);
        self.bytes = self.bytes.wrapping_add(bytes);
    }
}

// A walk: its random numbers, and its sums.
#[derive(Drop)]
struct Walk {
    seed: u32,
    sent: Sums,
    completed: Sums,
}

impl Walk {
    // The next number of a linear congruential generator.
    fn next(&mut self) -> u32 {
        self.seed = self.seed.wrapping_mul(1664525).wrapping_add(1013904223);
        self.seed >> 16
    }

    // One call of four, by the next number. A refusal but for memory is one of the run.
    fn step(&mut self, run: &mut CreditRun, payloads: &[Payload]) -> Result<(), CreditRunError> {
        let number = self.next();
        match number & 3 {
            0 => grant(
                run,
                (number >> 2) & 15,
                number & 192 == 0,
                number & 768 == 0,
            ),
            1 => self.send(run, payloads, number),
            2 => self.arrive(run, number),
            _ => back_arrives(run).map(|_| ()),
        }
    }

    fn send(
        &mut self,
        run: &mut CreditRun,
        payloads: &[Payload],
        number: u32,
    ) -> Result<(), CreditRunError> {
        let Some(payload) = payloads.get((number >> 2) as usize & 3) else {
            return Ok(());
        };
        drop(run.send(payload, number & 64 == 0)?);
        self.sent.add(payload.len());
        Ok(())
    }

    fn arrive(&mut self, run: &mut CreditRun, id: u32) -> Result<(), CreditRunError> {
        if let Seen::Completed(bytes) = arrive(run, id)? {
            self.completed.add(bytes);
        }
        Ok(())
    }
}

fn payloads(alloc: Global) -> Result<Vec<Payload>, AllocError> {
    let mut payloads = Vec::new(alloc);
    payloads.push(Payload::copy_from_slice(alloc, &[])?)?;
    payloads.push(Payload::copy_from_slice(alloc, &[1])?)?;
    payloads.push(Payload::copy_from_slice(alloc, &[2; 40])?)?;
    payloads.push(Payload::copy_from_slice(alloc, &[3; 200])?)?;
    Ok(payloads)
}

// 1,000 calls, and then all that is under way arrives: what was sent was completed, and both delivery-counts are
// the same again.
#[test]
fn a_walk_completes_what_it_sends(rt: HostRuntime) {
    let payloads = payloads(rt.alloc()).expect(&rt, "memory");
    let mut run = new_run(&rt, rt.alloc(), 4294967290, 64);
    let none = Sums {
        deliveries: 0,
        bytes: 0,
    };
    let mut walk = Walk {
        seed: 7,
        sent: none,
        completed: none,
    };
    for _ in 0..1000u32 {
        let refused = walk.step(&mut run, payloads.as_slice()).err();
        assert_ne!(rt; refused, Some(CreditRunError::OutOfMemory));
    }
    for id in 0..2000u32 {
        let _ = walk.arrive(&mut run, id);
    }
    assert_equal(&rt, &walk.completed, &walk.sent);
    assert_equal(&rt, &(walk.sent.deliveries, walk.sent.bytes), &(103, 5624));
    let [sender, receiver] = numbers(&run);
    assert_equal(&rt, &sender.0, &receiver.0);
    drop((run, payloads));
}

// One of the calls of a run.
#[derive(Clone, Copy, Debug, PartialEq, Eq)]
enum Call {
    Grant,
    Back,
    Send,
    Forward,
}

fn make(run: &mut CreditRun, call: Call, bytes: &Payload) -> Result<Option<Seen>, CreditRunError> {
    match call {
        Call::Grant => grant(run, 1, false, true).map(|()| None),
        Call::Back => back_arrives(run).map(|_| None),
        Call::Send => run.send(bytes, false).map(|sent| {
            drop(sent);
            None
        }),
        Call::Forward => arrive(run, 3).map(Some),
    }
}

// Makes a call; one that is out of memory leaves the numbers, and is made again.
fn again(rt: &impl Abort, run: &mut CreditRun, call: Call, bytes: &Payload) -> Option<Seen> {
    let before = numbers(run);
    let answer = make(run, call, bytes);
    if answer != Err(CreditRunError::OutOfMemory) {
        return answer.expect(rt, "no other refusal");
    }
    assert_equal_at(rt, &numbers(run), &before, &call);
    make(run, call, bytes).expect(rt, "memory")
}

// With one growth refused, whichever it is, the answers are those of a run where none is. `.ci/allocations` refuses
// each.
#[test]
fn refused_growth_loses_nothing(rt: HostRuntime) {
    let bytes = Payload::copy_from_slice(rt.alloc(), &[7; 79]);
    let bytes = bytes.or_else(|_| Payload::copy_from_slice(rt.alloc(), &[7; 79]));
    let bytes = bytes.expect(&rt, "memory");
    let mut run = new_run(&rt, rt.alloc(), 0, 64);
    assert_equal(&rt, &again(&rt, &mut run, Call::Grant, &bytes), &None);
    assert_equal(&rt, &again(&rt, &mut run, Call::Back, &bytes), &None);
    assert_equal(&rt, &again(&rt, &mut run, Call::Send, &bytes), &None);
    assert_equal(
        &rt,
        &again(&rt, &mut run, Call::Forward, &bytes),
        &Some(Seen::Flow),
    );
    assert_equal(
        &rt,
        &again(&rt, &mut run, Call::Forward, &bytes),
        &Some(Seen::Piece),
    );
    assert_equal(
        &rt,
        &again(&rt, &mut run, Call::Forward, &bytes),
        &Some(Seen::Piece),
    );
    assert_equal(
        &rt,
        &again(&rt, &mut run, Call::Forward, &bytes),
        &Some(Seen::Completed(79)),
    );
    assert_equal(&rt, &numbers(&run), &[(1, 0), (1, 0)]);
    assert_equal(&rt, &run.receiver().unsettled().len(), &1);
    assert_equal(&rt, &run.sender().unsettled().len(), &1);
    drop((run, bytes));
}
