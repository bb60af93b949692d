//! The steps of the run, in order.

/// A tag, by its bytes.
pub type Tag = &'static [u8];

/// Which transfer of a delivery it is, with the delivery's id and tag.
#[derive(Clone, Copy)]
pub enum Part {
    First(u32, Tag),
    /// The first of a delivery that is settled.
    FirstSettled(u32, Tag),
    /// The first of a delivery that is resumed.
    Resumed(u32, Tag),
    Further,
}

/// So many bytes of a delivery have arrived at an outgoing link's receiver.
#[derive(Clone, Copy)]
pub struct Reached {
    pub tag: Tag,
    pub bytes: u64,
}

/// How an outgoing link's receiver settles a delivery: by a state, or without one.
#[derive(Clone, Copy)]
pub enum Verdict {
    Accepted,
    Rejected,
    Silent,
}

/// What happens on an incoming link.
#[derive(Clone, Copy)]
pub enum Receiving {
    SendAttach,
    /// The sender attaches: it has begun so many deliveries, and has not settled those with these tags.
    TakeAttach(u32, &'static [Tag]),
    LoseSession,
    Grant(u32),
    /// A transfer with these bytes arrives; more of its delivery is to come, or not.
    TakeTransfer(Part, &'static [u8], bool),
    Take(Tag),
    TakeSettled,
    Settle(Tag),
}

/// What happens on an outgoing link.
#[derive(Clone, Copy)]
pub enum Sending {
    SendAttach,
    /// The receiver attaches, and states what it has.
    TakeAttach(&'static [Reached]),
    LoseSession,
    /// The receiver's flow arrives, with its delivery-count and its credit.
    TakeFlow(u32, u32),
    SendNext,
    ResumeNext,
    /// The receiver settles a delivery.
    TakeDisposition(Tag, Verdict),
}

/// A step on the link of this number.
#[derive(Clone, Copy)]
pub enum Step {
    Incoming(usize, Receiving),
    Outgoing(usize, Sending),
}

/// Steps under a title.
#[derive(Clone, Copy)]
pub struct Scene {
    pub title: &'static str,
    pub steps: &'static [Step],
}

const MORE: bool = true;

const LAST: bool = false;

// The tags of the senders of the incoming links, which know nothing of each other.
const ONE: Tag = &[1];

const TWO: Tag = &[2];

// The tags that the broker gives its deliveries on an outgoing link.
const OUT_ZERO: Tag = &[0, 0, 0, 0];

const OUT_ONE: Tag = &[0, 0, 0, 1];

const OUT_TWO: Tag = &[0, 0, 0, 2];

const ATTACHING: [Step; 8] = [
    Step::Incoming(0, Receiving::SendAttach),
    Step::Incoming(0, Receiving::TakeAttach(0, &[])),
    Step::Incoming(1, Receiving::SendAttach),
    Step::Incoming(1, Receiving::TakeAttach(0, &[])),
    Step::Outgoing(0, Sending::SendAttach),
    Step::Outgoing(0, Sending::TakeAttach(&[])),
    Step::Outgoing(1, Sending::SendAttach),
    Step::Outgoing(1, Sending::TakeAttach(&[])),
];

const GRANTING: [Step; 3] = [
    Step::Incoming(0, Receiving::Grant(2)),
    Step::Incoming(1, Receiving::Grant(2)),
    Step::Incoming(1, Receiving::Grant(1)),
];

// The last delivery of incoming 1 is one that its sender had no credit for: incoming 0 has the last of the room.
const ARRIVING: [Step; 9] = [
    Step::Incoming(
        0,
        Receiving::TakeTransfer(Part::First(0, ONE), &[1, 2, 3], MORE),
    ),
    Step::Incoming(0, Receiving::TakeTransfer(Part::Further, &[4, 5], LAST)),
    Step::Incoming(0, Receiving::Take(ONE)),
    Step::Incoming(
        1,
        Receiving::TakeTransfer(Part::FirstSettled(0, ONE), &[6, 7], LAST),
    ),
    Step::Incoming(1, Receiving::TakeSettled),
    Step::Incoming(1, Receiving::TakeTransfer(Part::First(1, TWO), &[9], LAST)),
    Step::Incoming(1, Receiving::Take(TWO)),
    Step::Incoming(0, Receiving::TakeTransfer(Part::First(1, TWO), &[8], LAST)),
    Step::Incoming(0, Receiving::Take(TWO)),
];

const SENDING: [Step; 8] = [
    Step::Outgoing(0, Sending::SendNext),
    Step::Outgoing(0, Sending::TakeFlow(0, 1)),
    Step::Outgoing(0, Sending::SendNext),
    Step::Outgoing(1, Sending::SendNext),
    Step::Outgoing(1, Sending::TakeFlow(0, 3)),
    Step::Outgoing(1, Sending::SendNext),
    Step::Outgoing(1, Sending::SendNext),
    Step::Outgoing(1, Sending::SendNext),
];

const RETURNING: [Step; 5] = [
    Step::Outgoing(1, Sending::TakeDisposition(OUT_ZERO, Verdict::Accepted)),
    Step::Incoming(1, Receiving::Take(TWO)),
    Step::Outgoing(1, Sending::TakeDisposition(OUT_ONE, Verdict::Rejected)),
    Step::Incoming(0, Receiving::Settle(TWO)),
    Step::Incoming(0, Receiving::Settle(ONE)),
];

// The receiver has the first three of the five bytes.
const OUTGOING_LOST: [Step; 5] = [
    Step::Outgoing(0, Sending::LoseSession),
    Step::Outgoing(0, Sending::SendAttach),
    Step::Outgoing(
        0,
        Sending::TakeAttach(&[Reached {
            tag: OUT_ZERO,
            bytes: 3,
        }]),
    ),
    Step::Outgoing(0, Sending::ResumeNext),
    Step::Outgoing(0, Sending::ResumeNext),
];

// The outcome arrives while the link of the delivery is cut.
const INCOMING_LOST: [Step; 8] = [
    Step::Incoming(0, Receiving::LoseSession),
    Step::Outgoing(0, Sending::TakeDisposition(OUT_ZERO, Verdict::Accepted)),
    Step::Incoming(0, Receiving::Settle(ONE)),
    Step::Incoming(0, Receiving::SendAttach),
    Step::Incoming(0, Receiving::TakeAttach(2, &[ONE])),
    Step::Incoming(0, Receiving::Settle(ONE)),
    Step::Incoming(0, Receiving::TakeTransfer(Part::Resumed(7, ONE), &[], LAST)),
    Step::Incoming(0, Receiving::Settle(ONE)),
];

const ENDING: [Step; 4] = [
    Step::Outgoing(1, Sending::SendNext),
    Step::Outgoing(1, Sending::TakeDisposition(OUT_TWO, Verdict::Silent)),
    Step::Incoming(1, Receiving::Settle(TWO)),
    Step::Incoming(0, Receiving::Grant(2)),
];

/// All of them.
pub const SCENES: [Scene; 8] = [
    Scene {
        title: "Each link attaches",
        steps: &ATTACHING,
    },
    Scene {
        title: "Credit is granted within the room, which is 3",
        steps: &GRANTING,
    },
    Scene {
        title: "Messages arrive, one more than was granted",
        steps: &ARRIVING,
    },
    Scene {
        title: "They are sent on",
        steps: &SENDING,
    },
    Scene {
        title: "Outcomes return, and make room",
        steps: &RETURNING,
    },
    Scene {
        title: "The session of outgoing 0 is lost",
        steps: &OUTGOING_LOST,
    },
    Scene {
        title: "The session of incoming 0 is lost",
        steps: &INCOMING_LOST,
    },
    Scene {
        title: "The last message",
        steps: &ENDING,
    },
];
