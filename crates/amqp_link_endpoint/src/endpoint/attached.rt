//! What an endpoint states in the attach that it sends, and what it takes of one that arrives (2.7.3).
ghost use Rattle.std.specs.Prelude.{◌≡◌, ◌||◌, true, IfOk, OnErr, is_some};
ghost use Rattle.std.specs.Option.{option_map, option_or};
ghost use Rattle.amqp_link_endpoint.specs.AttachFields.{message_limit, smaller_limit, merged_properties, merging_allocates};

use crate::endpoint::target::LinkTarget;
use amqp_link_types::types::{Fields, Source, TargetArchetype, Text};
use amqp_link_values::copy::copy_of;
use std::alloc::AllocError;

/// The max-message-size that an attach states: none for 0. Does not allocate.
pub fn sent_limit(max_message_size: u64) -> Option<u64>
    ensures { result ≡ message_limit max_message_size }
{
    if max_message_size == 0 {
        None
    } else {
        Some(max_message_size)
    }
}

/// The smaller of two max-message-sizes, where 0 and none are no limit (2.7.3). Does not allocate.
pub fn get_max_message_size(local: u64, remote: Option<u64>) -> u64
    ensures { result ≡ smaller_limit local remote }
{
    match remote {
        None | Some(0) => local,
        Some(remote) if local == 0 => remote,
        Some(remote) => local.min(remote),
    }
}

/// What is sent for a target. Allocates only if there is one.
pub fn archetype_of<T: LinkTarget>(
    target: &Option<T>,
) -> Result<Option<TargetArchetype>, AllocError>
    requires { (t c : T) → T.is_clone t c → c ≡ t }
    ensures sent { IfOk result (λ sent. sent ≡ option_map T.sent_as target.now) }
    ensures memory { OnErr result (is_some target.now ≡ true) }
{
    match target {
        Some(target) => {
            let copy = target.clone()?;
            Ok(Some(copy.into_archetype()))
        }
        None => Ok(None),
    }
}

/// What is sent for the two termini. Allocates only for those that are there.
pub fn termini_of<T: LinkTarget>(
    source: &Option<Source>,
    target: &Option<T>,
) -> Result<(Option<Source>, Option<TargetArchetype>), AllocError>
    requires { (t c : T) → T.is_clone t c → c ≡ t }
    ensures source { IfOk result (λ termini. termini.0 ≡ source.now) }
    ensures target { IfOk result (λ termini. termini.1 ≡ option_map T.sent_as target.now) }
    ensures memory { OnErr result ((is_some source.now || is_some target.now) ≡ true) }
{
    let source = copy_of(source)?;
    match archetype_of(target) {
        Ok(target) => Ok((source, target)),
        Err(refused) => {
            drop(source);
            Err(refused)
        }
    }
}

/// What is sent for the name and the properties.
pub fn name_and_properties_of(
    name: &Text,
    properties: &Option<Fields>,
) -> Result<(Text, Option<Fields>), AllocError>
    ensures name { IfOk result (λ copies. copies.0 ≡ name.now) }
    ensures properties { IfOk result (λ copies. copies.1 ≡ properties.now) }
{
    let name = name.clone()?;
    Ok((name, copy_of(properties)?))
}

/// The properties that replace the endpoint's own after the peer's attach (2.7.3): the own ones with the
/// peer's put one by one, or the peer's if there are no own ones. None if the own ones stay, since the attach
/// has none.
///
/// Allocates only if neither endpoint's map is absent or empty: otherwise one of the two maps is taken.
pub fn merged_with(
    own: &Option<Fields>,
    theirs: Option<Fields>,
) -> Result<Option<Fields>, AllocError>
    ensures merged { IfOk result (λ changed. option_or changed own.now ≡ merged_properties own.now theirs) }
    ensures memory { OnErr result (merging_allocates own.now theirs ≡ true) }
{
    match (own, theirs) {
        (_, None) => Ok(None),
        (None, Some(theirs)) => Ok(Some(theirs)),
        (Some(_), Some(theirs)) if theirs.is_empty() => {
            drop(theirs);
            Ok(None)
        }
        (Some(own), Some(theirs)) if own.is_empty() => Ok(Some(theirs)),
        (Some(own), Some(theirs)) => Ok(Some(own.merged(&theirs)?)),
    }
}
