//! The works that are measured, each at several sizes.
use crate::exchanging::{Attaching, Exchanging};
use crate::inboxes::{Keeping, Reattaching, Streaming};
use crate::measured::{Measured, measure};
use crate::merging::Merging;
use crate::pairs::{Holding, Walking};
use crate::payloads::Kind;
use crate::receiving::{Flowing, Receiving};
use crate::refused::Refused;
use crate::releasing::{Framing, Releasing};
use crate::scanning::{Positioning, Scanning};
use crate::sending::Splitting;
use crate::settling::{Batching, Disposing, Resolving};
use std::alloc::Global;
use std::rt::Clock;

// The frame limit of works whose deliveries are split.
const LIMIT: u32 = 4096;

/// A work, whose size is the bytes of a payload, or a number of deliveries.
#[derive(Clone, Copy)]
pub enum Task {
    /// Payloads are split, registered and sent.
    Split,
    /// Transfers are merged, with a position after each.
    Merge,
    /// Large deliveries are received and settled.
    Receive,
    /// Payloads of this kind are scanned as they arrive.
    Scan(Kind),
    /// The position of a payload is computed anew.
    Position,
    /// Deliveries of 64 bytes are sent, received and settled while so many are pending.
    Deliver,
    /// So many deliveries are accepted by a disposition each.
    Resolve,
    /// A sender settles so many deliveries at once.
    BatchDispose,
    /// A receiver settles so many deliveries at once.
    DisposeAll,
    /// Both endpoints attach with so many unsettled deliveries.
    Attach,
    /// A sender takes an attach with so many unsettled deliveries.
    Exchange,
    /// Deliveries of 64 bytes are sent and accepted, and what became of each so many is released.
    Release,
    /// Deliveries of 64 bytes arrive at an inbox, are taken and settled, while so many are kept.
    Keep,
    /// An inbox is attached again with so many deliveries.
    Reattach,
    /// A ledger sends a delivery of so many frames.
    Frame,
    /// A delivery of so many frames arrives at an inbox.
    Stream,
    /// A pair sends, is cut, resumes, hands out and settles.
    Pair,
    /// A pair sends, hands out and settles deliveries of 64 bytes while so many are pending.
    Hold,
}

/// How much is done: a work of this size, so often.
#[derive(Clone, Copy)]
pub struct Amount {
    pub size: u32,
    pub count: u32,
}

const fn of(size: u32, count: u32) -> Amount {
    Amount { size, count }
}

impl Task {
    /// What the work does.
    pub fn name(self) -> &'static str {
        match self {
            Task::Split => "split and register",
            Task::Merge => "merge",
            Task::Receive => "receive and settle",
            Task::Scan(Kind::Text) => "scan text",
            Task::Scan(Kind::Random) => "scan random bytes",
            Task::Scan(Kind::Zeros) => "scan zeros",
            Task::Scan(Kind::Headers) => "scan headers",
            Task::Scan(Kind::LongHeaders) => "scan long headers",
            Task::Position => "position_of text",
            Task::Deliver => "send, receive, settle",
            Task::Resolve => "on_incoming_disposition",
            Task::BatchDispose => "batch_dispose",
            Task::DisposeAll => "dispose_all",
            Task::Attach => "send_attach, both",
            Task::Exchange => "on_incoming_attach",
            Task::Release => "ledger: send, accept",
            Task::Keep => "inbox: take, settle",
            Task::Reattach => "inbox: both attaches",
            Task::Frame => "ledger: frames",
            Task::Stream => "inbox: frames",
            Task::Pair => "pair through a cut",
            Task::Hold => "pair: send, settle",
        }
    }

    /// What its size counts.
    pub fn unit(self) -> &'static str {
        match self {
            Task::Split | Task::Merge | Task::Receive | Task::Pair => "bytes",
            Task::Scan(_) | Task::Position => "bytes",
            Task::Deliver | Task::Hold => "pending",
            Task::Release => "a release",
            Task::Keep => "kept",
            Task::Frame | Task::Stream => "frames",
            Task::Resolve | Task::BatchDispose | Task::DisposeAll => "deliveries",
            Task::Attach | Task::Exchange | Task::Reattach => "deliveries",
        }
    }

    /// A small amount, to show what is done.
    pub fn shown(self) -> Amount {
        match self {
            Task::Split | Task::Merge | Task::Receive | Task::Pair => of(10_000, 1),
            Task::Scan(_) | Task::Position => of(1_000, 1),
            Task::Deliver | Task::Keep | Task::Hold => of(1, 1),
            Task::Release => of(10, 10),
            Task::Resolve | Task::BatchDispose | Task::DisposeAll => of(10, 1),
            Task::Attach | Task::Exchange | Task::Reattach => of(10, 1),
            Task::Frame | Task::Stream => of(10, 1),
        }
    }

    /// The amounts that are timed.
    pub fn timed(self) -> [Amount; 3] {
        match self {
            Task::Split | Task::Merge | Task::Receive | Task::Pair => {
                [of(64, 1_000), of(65_536, 100), of(1_048_576, 10)]
            }
            Task::Scan(_) | Task::Position => {
                [of(64, 100_000), of(65_536, 100), of(1_048_576, 10)]
            }
            Task::Deliver | Task::Keep | Task::Hold => {
                [of(1, 10_000), of(100, 10_000), of(10_000, 1_000)]
            }
            Task::Release => [of(1, 10_000), of(1_000, 100_000), of(1_000, 1_000_000)],
            Task::Resolve | Task::BatchDispose | Task::DisposeAll => {
                [of(10, 1), of(1_000, 1), of(10_000, 1)]
            }
            Task::Attach | Task::Exchange | Task::Reattach => {
                [of(10, 1), of(1_000, 1), of(10_000, 1)]
            }
            Task::Frame | Task::Stream => [of(10, 1), of(1_000, 1), of(10_000, 1)],
        }
    }

    /// The operations in an amount: a payload, a delivery or a frame each.
    pub fn operations(self, amount: Amount) -> u32 {
        match self {
            Task::Resolve | Task::BatchDispose | Task::DisposeAll => amount.size,
            Task::Attach | Task::Exchange | Task::Reattach => amount.size,
            Task::Frame | Task::Stream => amount.size,
            _ => amount.count,
        }
    }

    /// Makes the work ready, does it and measures it.
    pub fn measure<C: Clock>(
        self,
        clock: &C,
        alloc: Global,
        amount: Amount,
    ) -> Result<Measured, Refused> {
        let Amount { size, count } = amount;
        let length = size as usize;
        match self {
            Task::Split => measure(clock, Splitting::ready(alloc, length, LIMIT, count)?),
            Task::Merge => measure(clock, Merging::ready(alloc, length, LIMIT, count)?),
            Task::Receive => measure(clock, Receiving::ready(alloc, length, LIMIT, count)?),
            Task::Scan(kind) => measure(clock, Scanning::ready(alloc, kind, length, count)?),
            Task::Position => measure(clock, Positioning::ready(alloc, length, count)?),
            Task::Deliver => measure(clock, Flowing::ready(alloc, length, count)?),
            Task::Resolve => measure(clock, Resolving::ready(alloc, size)?),
            Task::BatchDispose => measure(clock, Batching::ready(alloc, size)?),
            Task::DisposeAll => measure(clock, Disposing::ready(alloc, size)?),
            Task::Attach => measure(clock, Attaching::ready(alloc, size)?),
            Task::Exchange => measure(clock, Exchanging::ready(alloc, size)?),
            Task::Release => measure(clock, Releasing::ready(alloc, length, count)?),
            Task::Keep => measure(clock, Keeping::ready(alloc, size, count)?),
            Task::Reattach => measure(clock, Reattaching::ready(alloc, size)?),
            Task::Frame => measure(clock, Framing::ready(alloc, length)?),
            Task::Stream => measure(clock, Streaming::ready(alloc, size)?),
            Task::Pair => measure(clock, Walking::ready(alloc, length, LIMIT, count)?),
            Task::Hold => measure(clock, Holding::ready(alloc, size, LIMIT, count)?),
        }
    }
}

/// All works, in the order in which they are printed.
pub fn all() -> [Task; 22] {
    [
        Task::Split,
        Task::Merge,
        Task::Receive,
        Task::Scan(Kind::Text),
        Task::Scan(Kind::Random),
        Task::Scan(Kind::Zeros),
        Task::Scan(Kind::Headers),
        Task::Scan(Kind::LongHeaders),
        Task::Position,
        Task::Deliver,
        Task::Resolve,
        Task::BatchDispose,
        Task::DisposeAll,
        Task::Attach,
        Task::Exchange,
        Task::Release,
        Task::Keep,
        Task::Reattach,
        Task::Frame,
        Task::Stream,
        Task::Pair,
        Task::Hold,
    ]
}
