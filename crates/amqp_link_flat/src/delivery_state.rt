//! The states of deliveries as C has them (3.4).
ghost use Rattle.std.specs.Prelude.{◌≡◌, ◌↔◌, IfErr, IfOk, IsSome, IsTrue, IsUtf8, OnErr, OnOk, option_copied};
ghost use Rattle.amqp_link_flat.specs.Flat.{bare_state, CarriesError, given, only_kind, plain_state};
ghost use Rattle.amqp_link_flat.specs.Flat.{rejection_error_of, stated_error, stated_state};
ghost use Rattle.amqp_link_flat.specs.Refusing.{AreTexts, IsTextRefusal, IsValueRefusal};
ghost use Rattle.amqp_link_types.specs.declared.types.delivery_state.DeliveryState.TheVariants as state;

use crate::status::{NO_SUCH_NUMBER, OUT_OF_MEMORY};
use crate::texts::{symbol, text_if};
use amqp_link_types::types::{Boxed, DeliveryState, Error};
use std::alloc::Global;

/// No state.
pub const NO_STATE: u32 = 0;
/// The receiver accepted the delivery.
pub const ACCEPTED: u32 = 1;
/// The receiver found it invalid.
pub const REJECTED: u32 = 2;
/// The receiver returned it unchanged.
pub const RELEASED: u32 = 3;
/// The receiver returned it changed.
pub const MODIFIED: u32 = 4;
/// A prefix of it arrived.
pub const RECEIVED: u32 = 5;

/// The state of a delivery. The error of a rejection has its texts beside it; annotations of a modified delivery, and the
/// info of an error, do not cross.
#[repr(C)]
#[derive(Drop)]
pub struct DeliveryStateFields {
    /// Of `AMQP_RECEIVED`: the bytes since the section's start.
    pub section_offset: u64,
    /// Which state it is: `AMQP_NO_STATE`, `AMQP_ACCEPTED` and so on.
    pub kind: u32,
    /// Of `AMQP_RECEIVED`: the section in which the prefix ends, counted from 0.
    pub section_number: u32,
    /// Of `AMQP_REJECTED`: whether it carries an error.
    pub has_error: bool,
    /// Whether the error has a description.
    pub has_description: bool,
    /// Of `AMQP_MODIFIED`: whether `delivery_failed` is there.
    pub has_delivery_failed: bool,
    /// Of `AMQP_MODIFIED`: whether the delivery counts as failed.
    pub delivery_failed: bool,
    /// Of `AMQP_MODIFIED`: whether `undeliverable_here` is there.
    pub has_undeliverable_here: bool,
    /// Of `AMQP_MODIFIED`: whether the delivery is not to be sent on this link again.
    pub undeliverable_here: bool,
}

/// The texts of an error, as C passes them.
#[derive(Clone, Copy)]
pub struct ErrorTexts<'a> {
    /// Whether there is an error.
    pub has_error: bool,
    /// Whether it has a description.
    pub has_description: bool,
    /// Its condition.
    pub condition: &'a [u8],
    /// Its description.
    pub description: &'a [u8],
}

/// The error of these texts, if there is one. Refused with `NO_TEXT` and `OUT_OF_MEMORY`.
pub fn error_of(alloc: Global, texts: ErrorTexts<'_>) -> Result<Option<Error>, u32>
    ensures error { IfOk result (λ error. error
        ≡ stated_error texts.entry.has_error texts.entry.has_description
        texts.entry.condition.now texts.entry.description.now) }
    ensures no_text { result ≡ Err 4 → ¬ (AreTexts (IsTrue texts.entry.has_error)
        texts.entry.has_description texts.entry.condition.now texts.entry.description.now) }
    ensures utf8 { OnOk result (AreTexts (IsTrue texts.entry.has_error)
        texts.entry.has_description texts.entry.condition.now texts.entry.description.now) }
    ensures memory { result ≡ Err 3 → IsTrue texts.entry.has_error × IsUtf8 texts.entry.condition.now }
    ensures refused { IfErr result IsTextRefusal }
{
    if !texts.has_error {
        return Ok(None);
    }
    let condition = symbol(alloc, texts.condition)?;
    let description = text_if(alloc, texts.has_description, texts.description)?;
    Ok(Some(Error {
        condition,
        description,
        info: None,
    }))
}

// A rejection with this error, if there is one.
fn rejected(alloc: Global, error: Option<Error>) -> Result<DeliveryState, u32>
    ensures rejected { IfOk result (λ made. made ≡ state.Rejected error) }
    ensures refused { IfErr result (λ status. status ≡ 3) }
    ensures memory { OnErr result (IsSome error) }
{
    let Some(error) = error else {
        return Ok(DeliveryState::Rejected { error: None });
    };
    match Boxed::new(alloc, error) {
        Ok(boxed) => Ok(DeliveryState::Rejected { error: Some(boxed) }),
        Err(_) => Err(OUT_OF_MEMORY),
    }
}

// A flag, if it is there.
pub(crate) fn flag(is_there: bool, value: bool) -> Option<bool>
    ensures { result ≡ given is_there value }
{
    if is_there { Some(value) } else { None }
}

impl DeliveryStateFields {
    /// The state that C has passed, without the error of a rejection; nothing if its kind is none.
    pub fn without_error(&self) -> Option<Option<DeliveryState>>
        ensures { result ≡ bare_state self.now }
    {
        if self.kind == NO_STATE {
            return Some(None);
        }
        if self.kind == ACCEPTED {
            return Some(Some(DeliveryState::Accepted));
        }
        if self.kind == REJECTED {
            return Some(Some(DeliveryState::Rejected { error: None }));
        }
        if self.kind == RELEASED {
            return Some(Some(DeliveryState::Released));
        }
        if self.kind == MODIFIED {
            return Some(Some(DeliveryState::Modified {
                delivery_failed: flag(self.has_delivery_failed, self.delivery_failed),
                undeliverable_here: flag(self.has_undeliverable_here, self.undeliverable_here),
                message_annotations: None,
            }));
        }
        if self.kind == RECEIVED {
            return Some(Some(DeliveryState::Received {
                section_number: self.section_number,
                section_offset: self.section_offset,
            }));
        }
        None
    }

    /// The state that C has passed, with these texts of the error of a rejection.
    ///
    /// Refused with `NO_SUCH_NUMBER` if the kind is none, with `NO_TEXT`, and with `OUT_OF_MEMORY`.
    pub fn to_state(
        &self,
        alloc: Global,
        condition: &[u8],
        description: &[u8],
    ) -> Result<Option<DeliveryState>, u32>
        ensures state { IfOk result (λ stated.
            stated_state self.now condition.now description.now ≡ Some stated) }
        ensures number { (result ≡ Err 5) ↔ (stated_state self.now condition.now description.now ≡ None) }
        ensures no_text { result ≡ Err 4 → ¬ (AreTexts (CarriesError self.now)
            self.now.has_description condition.now description.now) }
        ensures utf8 { OnOk result (AreTexts (CarriesError self.now)
            self.now.has_description condition.now description.now) }
        ensures memory { result ≡ Err 3 → CarriesError self.now × IsUtf8 condition.now }
        ensures refused { IfErr result IsValueRefusal }
    {
        if self.kind != REJECTED {
            return match self.without_error() {
                Some(state) => Ok(state),
                None => Err(NO_SUCH_NUMBER),
            };
        }
        let texts = ErrorTexts {
            has_error: self.has_error,
            has_description: self.has_description,
            condition,
            description,
        };
        let error = error_of(alloc, texts)?;
        Ok(Some(rejected(alloc, error)?))
    }

    // A state of this kind, without anything else.
    fn of_kind(kind: u32) -> DeliveryStateFields
        ensures { result ≡ only_kind kind }
    {
        DeliveryStateFields {
            section_offset: 0,
            kind,
            section_number: 0,
            has_error: false,
            has_description: false,
            has_delivery_failed: false,
            delivery_failed: false,
            has_undeliverable_here: false,
            undeliverable_here: false,
        }
    }

    /// The state for C, if there is one.
    pub fn of(state: &Option<DeliveryState>) -> DeliveryStateFields
        ensures { result ≡ plain_state state.now }
    {
        match state {
            None => DeliveryStateFields::of_kind(NO_STATE),
            Some(state) => DeliveryStateFields::of_state(state),
        }
    }

    /// The state for C.
    pub fn of_state(state: &DeliveryState) -> DeliveryStateFields
        ensures { result ≡ plain_state (Some state.now) }
    {
        match state {
            DeliveryState::Accepted => DeliveryStateFields::of_kind(ACCEPTED),
            DeliveryState::Released => DeliveryStateFields::of_kind(RELEASED),
            DeliveryState::Rejected { error } => {
                let mut fields = DeliveryStateFields::of_kind(REJECTED);
                if let Some(error) = error {
                    fields.has_error = true;
                    fields.has_description = error.description.is_some();
                }
                fields
            }
            DeliveryState::Modified {
                delivery_failed,
                undeliverable_here,
                ..
            } => {
                let mut fields = DeliveryStateFields::of_kind(MODIFIED);
                fields.has_delivery_failed = delivery_failed.is_some();
                fields.delivery_failed = delivery_failed.unwrap_or(false);
                fields.has_undeliverable_here = undeliverable_here.is_some();
                fields.undeliverable_here = undeliverable_here.unwrap_or(false);
                fields
            }
            DeliveryState::Received {
                section_number,
                section_offset,
            } => {
                let mut fields = DeliveryStateFields::of_kind(RECEIVED);
                fields.section_number = *section_number;
                fields.section_offset = *section_offset;
                fields
            }
        }
    }
}

/// The error of a rejection, if the state is one that carries an error.
pub fn rejection_error(state: &DeliveryState) -> Option<&Error>
    ensures { option_copied result ≡ rejection_error_of state.now }
{
    match state {
        DeliveryState::Rejected { error: Some(error) } => Some(error),
        _ => None,
    }
}
