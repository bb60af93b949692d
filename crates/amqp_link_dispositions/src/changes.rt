//! Changes of several entries of an unsettled map, one after the other. No change allocates: `changes_to`
//! makes what `set_each` needs before.
ghost use Rattle.std.specs.Prelude.{◌≡◌, ◌+◌, ◌≤◌, ◌++◌, IfOk, length, map, min, vec_len, vec_capacity};
ghost use Rattle.amqp_link_types.specs.Entries.{without_entries, IsMap};
ghost use Rattle.amqp_link_dispositions.specs.Changes.{StateChange, with_states};
ghost use Rattle.amqp_link_dispositions.specs.Ending.{settled_of};

use amqp_link_types::delivery::{Outcomes, UnsettledMessage};
use amqp_link_types::types::unsettled_map::{KeepsState, UnsettledMap};
use amqp_link_types::types::{DeliveryState, DeliveryTag};
use std::alloc::{AllocError, Global};

/// Each tag with a copy of the state.
pub(crate) fn changes_to<'a>(
    alloc: Global,
    tags: &[&'a DeliveryTag],
    state: &DeliveryState,
) -> Result<Vec<(&'a DeliveryTag, DeliveryState)>, AllocError>
    ensures { IfOk result (λ changes. map {B = StateChange} (λ change. (change.0.now, change.1)) changes.items
        ≡ map {B = StateChange} (λ tag. (tag, state.now)) (map (λ tag. tag.now) tags.now)) }
{
    let mut changes = Vec::with_capacity(alloc, tags.len())?;
    for tag in tags {
        changes.push((*tag, state.clone()?))?;
    }
    Ok(changes)
}

/// Sets the state of each delivery that has an entry.
pub(crate) fn set_each<V: KeepsState>(
    unsettled: &mut UnsettledMap<V>,
    changes: Vec<(&DeliveryTag, DeliveryState)>,
)
    ensures { unsettled.new ≡ with_states V.with_state unsettled.old
        (map {B = StateChange} (λ change. (change.0.now, change.1)) changes.entry.items) }
{
    for (tag, state) in changes {
        unsettled.set_state(tag, Some(state));
    }
}

/// Removes the deliveries with these tags.
pub(crate) fn remove_all<V: Drop>(unsettled: &mut UnsettledMap<V>, tags: &[&DeliveryTag])
    ensures { unsettled.new ≡ without_entries unsettled.old (map (λ tag. tag.now) tags.now) }
{
    for tag in tags {
        drop(unsettled.remove(tag));
    }
}

/// Removes the deliveries with these tags, and resolves each with the state stored in its entry, in a list
/// that has room for all.
pub(crate) fn settle_all(
    unsettled: &mut UnsettledMap<UnsettledMessage>,
    tags: &[&DeliveryTag],
    outcomes: &mut Outcomes,
)
    requires distinct { IsMap unsettled.old }
    requires room { vec_len outcomes.old + min (length tags.now) (length unsettled.old) ≤ vec_capacity outcomes.old }
    ensures removed { unsettled.new ≡ without_entries unsettled.old (map (λ tag. tag.now) tags.now) }
    ensures ended { outcomes.new.items ≡ outcomes.old.items ++ settled_of unsettled.old (map (λ tag. tag.now) tags.now) }
{
    for tag in tags {
        if let Some((tag, message)) = unsettled.remove_entry(tag) {
            drop(outcomes.push((tag, message.settle())));
        }
    }
}
