//! How many bytes a performative and its parts take, each in its shortest code (1.6 and 2.7).
//!
//! A described list is measured from its last field to its first: a null takes a byte only if something
//! follows it.
#![tactic(auto, using(crate::proofs::Sizes::sizes))]

ghost use Rattle.std.specs.Prelude.{Some, option_map};
ghost use Rattle.amqp_link_values.specs.Length.{IsU64Of};
ghost use Rattle.amqp_link_types.specs.Size.{list_of, flag};
ghost use Rattle.amqp_link_types.specs.Size;
ghost use Rattle.amqp_link_types.specs.Size.{mode_len, error_len, state_len};
ghost use Rattle.amqp_link_types.specs.Size.{transfer_len, len_after_tag, len_from_tag};
ghost use Rattle.amqp_link_types.specs.Size.{outcome_len};

mod attach;
mod terminus;

use crate::types::{DeliveryState, Error, Fields, Outcome, ReceiverSettleMode, Transfer};
use amqp_link_values::boxed::Boxed;
use amqp_link_values::length::EncodedLen;
use amqp_link_values::length::value::{compound_len, text_len};

// ---- described lists

// A field before others that take `rest` bytes; none is a null.
#[tactic(auto, unfolding(crate::specs::Size::before))]
pub(crate) fn before(len: Option<u64>, rest: u64) -> Option<u64>
    ensures { IsU64Of (Size.before len rest) result }
{
    match len {
        Some(len) => rest.checked_add(len),
        None if rest == 0 => Some(0),
        None => rest.checked_add(1),
    }
}

// A field that is there.
pub(crate) fn before_given<V: EncodedLen>(value: &V, rest: u64) -> Option<u64>
    ensures { IsU64Of (Size.before (Some (V.len_of value.now)) rest) result }
{
    before(Some(value.encoded_len()?), rest)
}

// A field that may be absent.
pub(crate) fn before_optional<V: EncodedLen>(value: &Option<V>, rest: u64) -> Option<u64>
    ensures { IsU64Of (Size.before (option_map V.len_of value.now) rest) result }
{
    match value {
        Some(value) => before_given(value, rest),
        None => before(None, rest),
    }
}

// A flag whose default is false.
pub(crate) fn before_flag(set: bool, rest: u64) -> Option<u64>
    ensures { IsU64Of (Size.before (flag set) rest) result }
{
    if set {
        before(Some(1), rest)
    } else {
        before(None, rest)
    }
}

// The descriptor and the list.
#[tactic(auto, unfolding(crate::specs::Size::list_of))]
pub(crate) fn described(content: u64) -> Option<u64>
    ensures { IsU64Of (list_of content) result }
{
    if content == 0 {
        Some(4)
    } else {
        compound_len(content)?.checked_add(3)
    }
}

// ---- modes

impl EncodedLen for ReceiverSettleMode {
    ghost len_of = { mode_len };

    fn encoded_len(&self) -> Option<u64> {
        Some(2)
    }
}

// ---- errors and states

impl EncodedLen for Error {
    ghost len_of = { error_len };

    fn encoded_len(&self) -> Option<u64> {
        let rest = before_optional(&self.info, 0)?;
        let rest = before_optional(&self.description, rest)?;
        let rest = before_given(&self.condition, rest)?;
        described(rest)
    }
}

fn rejected_len(error: &Option<Boxed<Error>>) -> Option<u64>
    ensures { IsU64Of (Size.rejected_len error.now) result }
{
    described(before_optional(error, 0)?)
}

fn modified_len(
    failed: &Option<bool>,
    undeliverable: &Option<bool>,
    annotations: &Option<Boxed<Fields>>,
) -> Option<u64>
    ensures { IsU64Of (Size.modified_len failed.now undeliverable.now annotations.now) result }
{
    let rest = before_optional(annotations, 0)?;
    let rest = before_optional(undeliverable, rest)?;
    let rest = before_optional(failed, rest)?;
    described(rest)
}

fn received_len(section_number: u32, section_offset: u64) -> Option<u64>
    ensures { IsU64Of (state_len (DeliveryState.Received section_number section_offset)) result }
{
    let rest = before_given(&section_offset, 0)?;
    let rest = before_given(&section_number, rest)?;
    described(rest)
}

impl EncodedLen for DeliveryState {
    ghost len_of = { state_len };

    fn encoded_len(&self) -> Option<u64> {
        match self {
            DeliveryState::Accepted | DeliveryState::Released => described(0),
            DeliveryState::Rejected { error } => rejected_len(error),
            DeliveryState::Modified {
                delivery_failed,
                undeliverable_here,
                message_annotations,
            } => modified_len(delivery_failed, undeliverable_here, message_annotations),
            DeliveryState::Received {
                section_number,
                section_offset,
            } => received_len(*section_number, *section_offset),
        }
    }
}

impl EncodedLen for Outcome {
    ghost len_of = { outcome_len };

    fn encoded_len(&self) -> Option<u64> {
        match self {
            Outcome::Accepted | Outcome::Released => described(0),
            Outcome::Rejected { error } => rejected_len(error),
            Outcome::Modified {
                delivery_failed,
                undeliverable_here,
                message_annotations,
            } => modified_len(delivery_failed, undeliverable_here, message_annotations),
        }
    }
}

// ---- performatives

impl EncodedLen for Transfer {
    ghost len_of = { transfer_len };

    #[tactic(auto, using(crate::proofs::Sizes::sizes), unfolding(crate::specs::Size::transfer_len))]
    fn encoded_len(&self) -> Option<u64> {
        let rest = before_optional(&self.delivery_tag, fields_after_tag(self)?)?;
        described_before_tag(self, rest)
    }
}

impl Transfer {
    /// How many bytes the transfer takes with a tag of these bytes in place of its own, so that a
    /// sender can measure a transfer before it makes the tag. Does not allocate.
    #[tactic(auto, using(crate::proofs::Sizes::sizes), unfolding(crate::specs::Size::transfer_len))]
    pub fn encoded_len_with_tag(&self, tag: &[u8]) -> Option<u64>
        ensures { IsU64Of (transfer_len (record self.now { delivery_tag = Some tag.now })) result }
    {
        let rest = before(Some(text_len(tag.len())?), fields_after_tag(self)?)?;
        described_before_tag(self, rest)
    }
}

// The fields of a transfer that follow its tag.
fn fields_after_tag(transfer: &Transfer) -> Option<u64>
    ensures { IsU64Of (len_after_tag transfer.now) result }
{
    let rest = before_flag(transfer.batchable, 0)?;
    let rest = before_flag(transfer.aborted, rest)?;
    let rest = before_flag(transfer.resume, rest)?;
    let rest = before_optional(&transfer.state, rest)?;
    let rest = before_optional(&transfer.rcv_settle_mode, rest)?;
    let rest = before_flag(transfer.more, rest)?;
    let rest = before_optional(&transfer.settled, rest)?;
    before_optional(&transfer.message_format, rest)
}

// A transfer of which the tag and the fields that follow it take `rest` bytes.
fn described_before_tag(transfer: &Transfer, rest: u64) -> Option<u64>
    ensures { IsU64Of (len_from_tag transfer.now rest) result }
{
    let rest = before_optional(&transfer.delivery_id, rest)?;
    let rest = before_given(&transfer.handle.0, rest)?;
    described(rest)
}
