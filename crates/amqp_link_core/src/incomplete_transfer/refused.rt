//! A transfer that a delivery refuses, handed back (2.7.5).
ghost use Rattle.std.specs.Prelude.{◌≡◌};

use amqp_link_types::types::{Payload, ReceiverTransferError, Transfer};

/// A transfer that was refused, with its payload and the reason.
#[derive(Debug, Drop)]
pub struct RefusedTransfer {
    /// Why it was refused.
    pub error: ReceiverTransferError,
    /// The transfer, as it was passed.
    pub transfer: Transfer,
    /// Its payload, as it was passed.
    pub payload: Payload,
}

impl RefusedTransfer {
    pub(super) fn new(
        error: ReceiverTransferError,
        transfer: Transfer,
        payload: Payload,
    ) -> RefusedTransfer
        ensures { result ≡ record { error = error; transfer = transfer; payload = payload } }
    {
        RefusedTransfer {
            error,
            transfer,
            payload,
        }
    }

    /// The reason alone; the transfer and its payload are dropped.
    pub fn into_error(self) -> ReceiverTransferError
        ensures { result ≡ self.error }
    {
        self.error
    }
}
