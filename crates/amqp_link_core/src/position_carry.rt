//! The position of payloads that arrive one by one (3.4.1).
ghost use Rattle.std.specs.Prelude.{◌≡◌, ◌++◌, [], ℕ, List, length, OnOk, OnErr};
ghost use Rattle.amqp_link_types.specs.Refusals.{AnswersExactly};

use amqp_link_payloads::position::sections::Sections;
use amqp_link_types::types::{Payload, ReceiverTransferError};

/// The position of the payloads that were pushed, kept as they arrive: each is read once. Wherever the bytes
/// are cut into payloads, empty ones included, the position is that of the bytes joined.
#[derive(Clone, Copy, Debug)]
pub struct PositionCarry {
    sections: Sections,
}

impl PositionCarry {
    ghost use Rattle.amqp_link_payloads.specs.Position.{position};
    ghost use Rattle.amqp_link_core.specs.Carries.{HasPushed};
    ghost use Rattle.amqp_link_core.specs.IncompleteRefusals.{long_test};

    /// No payload was pushed: the position is the first byte's, section 0 and offset 0.
    pub fn new() -> PositionCarry
        ensures { HasPushed result [] }
    {
        PositionCarry {
            sections: Sections::new(),
        }
    }

    /// Adds a payload. Refused with `PayloadTooLong`, and nothing changed, if a u64 does not hold the length
    /// of all payloads, or a u32 the number of the section in which they end. Reads the payload once, and
    /// does not allocate.
    pub fn push(&mut self, payload: &Payload) -> Result<(), ReceiverTransferError>
        ensures pushed { (F : List ℕ) → HasPushed self.old F
            → OnOk result (HasPushed self.new (F ++ payload.now)) }
        ensures refused { (F : List ℕ) → HasPushed self.old F
            → AnswersExactly result (long_test (F ++ payload.now)) }
        ensures left { OnErr result (self.new ≡ self.old) }
    {
        let Some(sections) = self.sections.read(payload.as_slice()) else {
            return Err(ReceiverTransferError::PayloadTooLong);
        };
        self.sections = sections;
        Ok(())
    }

    /// The number of the section in which the payloads end, counted from 0, and the bytes since its start.
    pub fn position(&self) -> (u32, u64)
        ensures { (F : List ℕ) → HasPushed self.now F → result ≡ position F }
    {
        self.sections.position()
    }

    /// The number of bytes that were pushed.
    pub fn len(&self) -> u64
        ensures { (F : List ℕ) → HasPushed self.now F → result ≡ length F }
    {
        self.sections.len()
    }
}
