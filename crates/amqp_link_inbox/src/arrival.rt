//! What a transfer makes of its delivery (2.7.5).

use crate::kept::Stage;
use amqp_link_types::types::{DeliveryNumber, DeliveryTag};

/// What a transfer has made of its delivery.
#[derive(Clone, Copy, Debug, PartialEq, Eq)]
pub enum Arrival {
    /// It has begun a delivery, of which more is to come.
    Begun,
    /// It has added to a delivery that had begun, also in an earlier attachment; more is to come.
    Continued,
    /// It was the last of its delivery, which `Inbox::take` returns.
    Complete,
    /// It was the last of a delivery that its sender has settled. `Inbox::take_settled` returns it, after those that were
    /// complete before.
    CompleteSettled,
    /// It belongs to a delivery that was complete before, and that its sender resumes. Nothing is delivered again. If it was
    /// not taken, and this was its last transfer and settles it, it waits from now on among those that are settled.
    Known,
    /// It aborts its delivery, which had come as far as that; none, if nothing was kept of it. What was kept is dropped.
    Aborted(Option<Stage>),
    /// It belongs to a delivery of which nothing is kept, and does not begin one: it resumes what is not in the unsettled
    /// map, or continues what was given up (2.7.5).
    Ignored,
}

/// The result of a transfer.
#[derive(Debug, PartialEq, Eq, Drop)]
pub struct Arrived {
    /// What it has made of its delivery.
    pub arrival: Arrival,
    /// The tag of its delivery, if no more transfers of it are to come.
    pub tag: Option<DeliveryTag>,
    /// How far a delivery of the same tag had come in whose place it has begun a new one. That one is dropped.
    pub replaced: Option<Stage>,
    /// Whether it has begun a delivery for which the link had no credit: its sender has passed what it was granted, or the
    /// credit was lowered after it was sent (2.6.7).
    pub without_credit: bool,
    /// The id and tag of the delivery that the session has to keep, as `ReceiverLink::on_incoming_transfer` returns them.
    pub session: Option<(DeliveryNumber, DeliveryTag)>,
}
