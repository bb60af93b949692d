//! The filters of a source (3.5.8): those that a receiver asks for have to be in place.
ghost use Rattle.std.specs.Prelude.{◌≡◌, ◌≢◌, ◌⊎◌, not, [], OnOk, IfOk, OnErr, IfErr};
ghost use Rattle.amqp_link_verification.specs.Filters.{names_missing, filters_missing};
ghost use Rattle.amqp_link_verification.specs.Filters;

use amqp_link_types::types::errors::ReceiverAttachError;
use amqp_link_values::fields::{Fields, FilterSet};
use amqp_link_values::symbol::Symbol;
use amqp_link_values::symbols::Symbols;
use amqp_link_values::value::Value;
use std::alloc::AllocError;
use thiserror::Error;

/// Why the filters of a source are refused.
#[derive(Debug, PartialEq, Eq, Drop, Error)]
pub enum FilterError {
    /// The receiver asked for filters of these names, and they are not in place.
    #[error("filters that were asked for are not in place")]
    DesiredFilterNotSupported(Symbols),
    /// Out of memory: the list of the names was not made.
    #[error("out of memory")]
    OutOfMemory,
}

impl From<AllocError> for FilterError {
    ghost use Rattle.amqp_link_verification.specs.declared.filter.FilterError.TheVariants.{OutOfMemory};

    ghost from_gives = { λ _ error. error ≡ OutOfMemory };

    fn from(_error: AllocError) -> FilterError {
        FilterError::OutOfMemory
    }
}

impl From<FilterError> for ReceiverAttachError {
    ghost use Rattle.amqp_link_verification.specs.Filters.{attach_error};

    ghost from_gives = { λ error given. given ≡ attach_error error };

    fn from(error: FilterError) -> ReceiverAttachError {
        match error {
            FilterError::DesiredFilterNotSupported(names) => {
                ReceiverAttachError::DesiredFilterNotSupported(names)
            }
            FilterError::OutOfMemory => ReceiverAttachError::OutOfMemory,
        }
    }
}

/// Whether each filter that is asked for is in place, with any value: a filter is missing if its name is
/// absent there or has null. The missing names are listed in the order in which they are asked for; only
/// their list allocates. Each name is looked up once.
pub fn verify_filter(
    desired: &Option<FilterSet>,
    supported: &Option<FilterSet>,
) -> Result<(), FilterError>
    ensures in_place { OnOk result (filters_missing desired.now supported.now ≡ []) }
    ensures missing { OnErr result (filters_missing desired.now supported.now ≢ []) }
    ensures refused { IfErr result (λ error. (error ≡ FilterError.OutOfMemory)
        ⊎ (error ≡ FilterError.DesiredFilterNotSupported (filters_missing desired.now supported.now))) }
{
    let Some(desired) = desired else {
        return Ok(());
    };
    let missing = missing_names(desired, supported)?;
    if missing.is_empty() {
        return Ok(());
    }
    Err(FilterError::DesiredFilterNotSupported(missing.into()))
}

// The names of the filters that are not in place, in order. Allocates only for those.
fn missing_names(desired: &Fields, supported: &Option<Fields>) -> Result<Vec<Symbol>, AllocError>
    ensures names { IfOk result (λ names. names.items ≡ names_missing supported.now desired.now) }
    ensures memory { OnErr result (names_missing supported.now desired.now ≢ []) }
{
    let mut missing = Vec::new(desired.allocator());
    for (name, _) in desired.iter() {
        if !is_in_place(supported, name) {
            missing.push(name.clone()?)?;
        }
    }
    Ok(missing)
}

fn is_in_place(supported: &Option<Fields>, name: &Symbol) -> bool
    ensures { result ≡ Filters.is_in_place supported.now name.now }
{
    let Some(filters) = supported else {
        return false;
    };
    match filters.get(name) {
        None | Some(Value::Null) => false,
        Some(_) => true,
    }
}
