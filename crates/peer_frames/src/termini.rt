//! Sources and targets.
use crate::values::{fields, fields_or_none, symbols_or_none, text};
use crate::world::World;
use amqp_link_types::types::{
    DistributionMode, FilterSet, Outcome, Source, Target, TerminusDurability, TerminusExpiryPolicy,
    Text,
};
use std::alloc::AllocError;

fn address(world: &mut World) -> Result<Option<Text>, AllocError> {
    if world.random.flag() {
        return Ok(None);
    }
    Ok(Some(text(world.alloc, "here")?))
}

fn durability(world: &mut World) -> TerminusDurability {
    match world.random.below(6) {
        0 => TerminusDurability::Configuration,
        1 => TerminusDurability::UnsettledState,
        _ => TerminusDurability::None,
    }
}

fn expiry(world: &mut World) -> TerminusExpiryPolicy {
    match world.random.below(8) {
        0 => TerminusExpiryPolicy::LinkDetach,
        1 => TerminusExpiryPolicy::ConnectionClose,
        2 => TerminusExpiryPolicy::Never,
        _ => TerminusExpiryPolicy::SessionEnd,
    }
}

fn timeout(world: &mut World) -> u32 {
    if world.random.in_hundred(80) {
        return 0;
    }
    world.random.absurd()
}

fn filter(world: &mut World) -> Result<Option<FilterSet>, AllocError> {
    if world.random.in_hundred(70) {
        return Ok(None);
    }
    Ok(Some(fields(world)?))
}

fn distribution(world: &mut World) -> Option<DistributionMode> {
    match world.random.below(6) {
        0 => Some(DistributionMode::Move),
        1 => Some(DistributionMode::Copy),
        _ => None,
    }
}

fn default_outcome(world: &mut World) -> Option<Outcome> {
    match world.random.below(6) {
        0 => Some(Outcome::Accepted),
        1 => Some(Outcome::Released),
        _ => None,
    }
}

/// A source of which much is said.
pub fn full_source(world: &mut World) -> Result<Source, AllocError> {
    Ok(Source {
        address: address(world)?,
        durable: durability(world),
        expiry_policy: expiry(world),
        timeout: timeout(world),
        dynamic: world.random.in_hundred(40),
        dynamic_node_properties: fields_or_none(world)?,
        distribution_mode: distribution(world),
        filter: filter(world)?,
        default_outcome: default_outcome(world),
        outcomes: symbols_or_none(world)?,
        capabilities: symbols_or_none(world)?,
    })
}

/// A target of which much is said.
pub fn full_target(world: &mut World) -> Result<Target, AllocError> {
    Ok(Target {
        address: address(world)?,
        durable: durability(world),
        expiry_policy: expiry(world),
        timeout: timeout(world),
        dynamic: world.random.in_hundred(40),
        dynamic_node_properties: fields_or_none(world)?,
        capabilities: symbols_or_none(world)?,
    })
}

/// A source: mostly one of which nothing is said.
pub fn source(world: &mut World) -> Result<Source, AllocError> {
    if world.random.in_hundred(75) {
        return Ok(Source::default());
    }
    full_source(world)
}

/// A target: mostly one of which nothing is said.
pub fn target(world: &mut World) -> Result<Target, AllocError> {
    if world.random.in_hundred(75) {
        return Ok(Target::default());
    }
    full_target(world)
}
