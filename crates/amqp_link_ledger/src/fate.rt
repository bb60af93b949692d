//! What becomes of a delivery after its sender has registered it (2.6.12 and 2.6.13).
use amqp_link_types::delivery::DeliveryOutcome;
use thiserror::Error;

/// What became of a registration. All but `Pending` are final, until they are released.
#[derive(Debug, PartialEq, Eq, Drop)]
pub enum Fate {
    /// In the sender's unsettled map.
    Pending,
    /// Taken back by the user, without an outcome.
    Withdrawn,
    /// Returned in the list of an exchange of unsettled maps: to be resumed, sent again or aborted, or its
    /// outcome to be stated again.
    HandedOut,
    /// Settled with this outcome, or failed.
    Resolved(DeliveryOutcome),
    /// It had ended, and what became of it was released: neither its tag nor its outcome is kept.
    Released,
}

/// Why registrations are not released: the one with this number, the first such, is still pending.
#[derive(Clone, Copy, Debug, PartialEq, Eq, Error)]
#[error("registration {0} is still pending")]
pub struct StillPending(pub usize);
