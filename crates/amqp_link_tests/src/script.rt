//! Scripts of a delivery of twelve bytes that is cut off, with what each call returns: before it arrives, to be put
//! back, sent again, handed out and settled; after ten bytes, to be resumed and handed out; and after five, to be
//! withdrawn and aborted.
use amqp_link::pair::PairError;
use amqp_link::{DeliveryTag, Payload};
use std::alloc::{AllocError, Global};
use std::process::Abort;

pub(crate) const TWELVE: [u8; 12] = [1, 2, 3, 4, 5, 6, 7, 8, 9, 10, 11, 12];

// A call, of the one delivery.
#[derive(Clone, Copy, Debug)]
pub(crate) enum Call {
    Attach(u32),
    Grant(u32),
    Send,
    Arrive(u32),
    Cut,
    ResumeNext,
    PutBackNext,
    HandOut,
    Settle,
    Withdraw,
}

// What is seen of an answer.
#[derive(Clone, Copy, Debug, PartialEq, Eq)]
pub(crate) enum Seen {
    /// How many deliveries are to be resumed, or how many transfers are sent.
    Count(usize),
    Credit(u32),
    /// Where what is held ends, and whether the delivery is whole.
    Place(u32, u64, bool),
    /// How many transfers are sent, and whether the delivery is resumed.
    Resumed(usize, bool),
    /// Whether the bytes that are handed out are those that were sent.
    HandedOut(bool),
    /// Whether it is the delivery.
    Back(bool),
    /// Whether it is the delivery.
    Aborted(bool),
    Done,
}

// The delivery, and what is sent.
#[derive(Drop)]
pub(crate) struct Sample {
    pub(crate) tag: DeliveryTag,
    pub(crate) payload: Payload,
}

pub(crate) fn tag(alloc: Global) -> Result<DeliveryTag, AllocError> {
    Ok(DeliveryTag::from([0; 4].to_vec(alloc)?))
}

pub(crate) fn new_sample(rt: &(impl Abort + AllocGlobal)) -> Sample {
    let alloc = rt.alloc();
    let tag = tag(alloc).or_else(|_| tag(alloc));
    let payload = Payload::copy_from_slice(alloc, &TWELVE);
    let payload = payload.or_else(|_| Payload::copy_from_slice(alloc, &TWELVE));
    Sample {
        tag: tag.expect(rt, "memory"),
        payload: payload.expect(rt, "memory"),
    }
}

// A frame of 38 bytes has room for an attach that states a pending delivery, one of 37 has none.
pub(crate) const CUT_OFF: [(Call, Result<Seen, PairError>); 11] = [
    (Call::Attach(30), Ok(Seen::Count(0))),
    (Call::Grant(1), Ok(Seen::Credit(1))),
    (Call::Send, Ok(Seen::Count(3))),
    (Call::Cut, Ok(Seen::Done)),
    (Call::Attach(37), Err(PairError::LimitTooSmall)),
    (Call::Attach(38), Ok(Seen::Count(1))),
    (Call::Cut, Err(PairError::StillHandedOut)),
    (Call::Send, Err(PairError::ResumeFirst)),
    (Call::PutBackNext, Ok(Seen::Back(true))),
    (Call::Cut, Ok(Seen::Done)),
    (Call::Attach(38), Ok(Seen::Count(1))),
];

pub(crate) const SENT_AGAIN: [(Call, Result<Seen, PairError>); 5] = [
    (Call::ResumeNext, Ok(Seen::Resumed(1, false))),
    (Call::Arrive(9), Ok(Seen::Place(0, 12, true))),
    (Call::HandOut, Ok(Seen::HandedOut(true))),
    (Call::HandOut, Err(PairError::AlreadyHandedOut)),
    (Call::Settle, Ok(Seen::Done)),
];

// A delivery of which ten bytes have arrived is cut off: the rest alone is sent.
pub(crate) const RESUMED: [(Call, Result<Seen, PairError>); 12] = [
    (Call::Attach(30), Ok(Seen::Count(0))),
    (Call::Grant(1), Ok(Seen::Credit(1))),
    (Call::Send, Ok(Seen::Count(3))),
    (Call::Arrive(7), Ok(Seen::Place(0, 5, false))),
    (Call::Arrive(0), Ok(Seen::Place(0, 10, false))),
    (Call::HandOut, Err(PairError::NotWhole)),
    (Call::Cut, Ok(Seen::Done)),
    (Call::Attach(64), Ok(Seen::Count(1))),
    (Call::ResumeNext, Ok(Seen::Resumed(1, true))),
    (Call::Settle, Err(PairError::NotWhole)),
    (Call::Arrive(8), Ok(Seen::Place(0, 12, true))),
    (Call::HandOut, Ok(Seen::HandedOut(true))),
];

// A delivery of which five bytes have arrived is withdrawn: the receiver forgets it, once the transfer arrives that
// aborts it. It is listed again by each attach until then.
pub(crate) const WITHDRAWN: [(Call, Result<Seen, PairError>); 20] = [
    (Call::Attach(30), Ok(Seen::Count(0))),
    (Call::Grant(2), Ok(Seen::Credit(2))),
    (Call::Send, Ok(Seen::Count(3))),
    (Call::Arrive(7), Ok(Seen::Place(0, 5, false))),
    (Call::Withdraw, Err(PairError::AlreadyAttached)),
    (Call::Cut, Ok(Seen::Done)),
    (Call::Withdraw, Ok(Seen::Done)),
    (Call::Withdraw, Err(PairError::UnknownTag)),
    (Call::Attach(45), Err(PairError::LimitTooSmall)),
    (Call::Attach(46), Ok(Seen::Count(1))),
    (Call::PutBackNext, Ok(Seen::Back(true))),
    (Call::Cut, Ok(Seen::Done)),
    (Call::Attach(46), Ok(Seen::Count(1))),
    (Call::ResumeNext, Ok(Seen::Aborted(true))),
    (Call::Cut, Ok(Seen::Done)),
    (Call::Attach(46), Ok(Seen::Count(1))),
    (Call::ResumeNext, Ok(Seen::Aborted(true))),
    (Call::HandOut, Err(PairError::UnknownTag)),
    (Call::Settle, Err(PairError::UnknownTag)),
    (Call::Arrive(0), Ok(Seen::Aborted(true))),
];
