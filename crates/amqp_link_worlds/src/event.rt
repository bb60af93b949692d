//! The calls of a pair as values, and what each returns.
use amqp_link_types::delivery::Delivery;
use amqp_link_types::types::{DeliveryNumber, DeliveryTag, Payload, Whole};

/// A call of a pair, with its arguments.
#[derive(Debug, PartialEq, Eq, Drop)]
pub enum Event {
    /// `attach`, at this frame limit in bytes.
    Attach(u32),
    /// `grant`, of credit for so many deliveries.
    Grant(u32),
    /// `send`, of this payload.
    Send(Payload),
    /// `arrive`, with this delivery id.
    Arrive(DeliveryNumber),
    /// `cut`.
    Cut,
    /// `resume_next`.
    ResumeNext,
    /// `put_back_next`.
    PutBackNext,
    /// `hand_out`, of the delivery with this tag.
    HandOut(DeliveryTag),
    /// `settle`, of the delivery with this tag.
    Settle(DeliveryTag),
    /// `withdraw`, of the delivery with this tag.
    Withdraw(DeliveryTag),
}

/// What a call of a pair returns that was not refused, if messages have bodies of this type.
#[derive(Debug, PartialEq, Eq, Drop)]
pub enum AnswerOf<B> {
    /// This many deliveries are to be resumed.
    Attached(usize),
    /// The sender has this link-credit.
    Granted(u32),
    /// A delivery was sent.
    Sent {
        /// The delivery's tag.
        tag: DeliveryTag,
        /// The number of its transfers.
        frames: usize,
    },
    /// A transfer arrived.
    Arrived {
        /// The tag of its delivery.
        tag: DeliveryTag,
        /// The section in which what the receiver holds of the delivery ends, counted from 0.
        section_number: u32,
        /// The bytes that it holds since that section's start.
        section_offset: u64,
        /// Whether the delivery's last transfer has arrived.
        whole: bool,
    },
    /// The link was interrupted.
    Cut,
    /// The rest of a delivery was sent.
    Resumed {
        /// The delivery's tag.
        tag: DeliveryTag,
        /// The number of transfers.
        frames: usize,
        /// Whether the delivery is resumed, since the receiver holds something of it. Otherwise it is sent
        /// again.
        resume: bool,
    },
    /// The entry of the delivery with this tag was registered again.
    PutBack(DeliveryTag),
    /// The receiver has handed out this delivery.
    HandedOut(Delivery<B>),
    /// Both endpoints have settled the delivery.
    Settled,
    /// The delivery was withdrawn.
    Withdrawn,
    /// The delivery with this tag is aborted: the transfer that aborts it was sent, or has arrived.
    Aborted(DeliveryTag),
}

/// What a call of a pair returns, if the body of a message is all its bytes.
pub type Answer = AnswerOf<Whole>;
