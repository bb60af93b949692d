//! The termini of a link: its source and its target (3.5).
ghost use Rattle.std.specs.Prelude.{◌≡◌, true, false, IfOk, OnErr};
ghost use Rattle.amqp_link_types.specs.Copies.{source_carries_more, target_carries_more, archetype_carries_more};

use crate::types::delivery_state::Outcome;
use amqp_link_values::copy::{copies_of, copy_of};
use amqp_link_values::fields::{Fields, FilterSet};
use amqp_link_values::symbols::Symbols;
use amqp_link_values::text::Text;
use std::alloc::AllocError;

/// Which state of a terminus is durable (3.5.5).
#[derive(Clone, Copy, Debug, Default, PartialEq, Eq, Hash)]
pub enum TerminusDurability {
    /// Nothing.
    #[default]
    None,
    /// Its existence and configuration.
    Configuration,
    /// Its unsettled deliveries as well.
    UnsettledState,
}

/// From when on a terminus expires (3.5.6).
#[derive(Clone, Copy, Debug, Default, PartialEq, Eq, Hash)]
pub enum TerminusExpiryPolicy {
    /// When its link is detached.
    LinkDetach,
    /// When its session ends.
    #[default]
    SessionEnd,
    /// When its connection closes.
    ConnectionClose,
    /// Never.
    Never,
}

/// Whether a message leaves its node as it is sent to a link (3.5.7).
#[derive(Clone, Copy, Debug, PartialEq, Eq, Hash)]
pub enum DistributionMode {
    /// It leaves: no other link gets it.
    Move,
    /// It stays: each link gets it.
    Copy,
}

/// The source of a link: where its messages come from (3.5.3).
///
/// The default has no address and no other field.
#[derive(Debug, Default, PartialEq, Eq, Drop)]
pub struct Source {
    /// The address of the node.
    pub address: Option<Text>,
    /// Which state of it is durable.
    pub durable: TerminusDurability,
    /// From when on it expires.
    pub expiry_policy: TerminusExpiryPolicy,
    /// The seconds that it stays after it has begun to expire.
    pub timeout: u32,
    /// Whether the peer is asked to create the node.
    pub dynamic: bool,
    /// The properties of a node that is created so.
    pub dynamic_node_properties: Option<Fields>,
    /// Whether messages leave the node.
    pub distribution_mode: Option<DistributionMode>,
    /// Which messages the link takes.
    pub filter: Option<FilterSet>,
    /// The outcome of a delivery for which none was stated.
    pub default_outcome: Option<Outcome>,
    /// The descriptors of the outcomes that may be chosen.
    pub outcomes: Option<Symbols>,
    /// What the terminus can do.
    pub capabilities: Option<Symbols>,
}

/// The target of a link: where its messages go (3.5.4).
///
/// The default has no address and no other field.
#[derive(Debug, Default, PartialEq, Eq, Drop)]
pub struct Target {
    /// The address of the node.
    pub address: Option<Text>,
    /// Which state of it is durable.
    pub durable: TerminusDurability,
    /// From when on it expires.
    pub expiry_policy: TerminusExpiryPolicy,
    /// The seconds that it stays after it has begun to expire.
    pub timeout: u32,
    /// Whether the peer is asked to create the node.
    pub dynamic: bool,
    /// The properties of a node that is created so.
    pub dynamic_node_properties: Option<Fields>,
    /// What the terminus can do.
    pub capabilities: Option<Symbols>,
}

/// A target of any kind. Here there is one kind, and no coordinator of transactions.
#[derive(Debug, PartialEq, Eq, Drop)]
pub enum TargetArchetype {
    /// A node to which messages go.
    Target(Target),
}

impl From<Target> for TargetArchetype {
    ghost use Rattle.amqp_link_types.specs.declared.types.terminus.TargetArchetype.TheVariants as archetype;

    ghost from_gives = { λ target kind. kind ≡ archetype.Target target };

    fn from(target: Target) -> TargetArchetype {
        TargetArchetype::Target(target)
    }
}

impl Clone for Source {
    ghost is_clone = { λ source copy. copy ≡ source };

    ghost is_infallible = { λ source. source_carries_more source ≡ false };

    fn clone(&self) -> Result<Source, AllocError>
        ensures copy { IfOk result (λ copy. copy ≡ self.now) }
        ensures memory { OnErr result (source_carries_more self.now ≡ true) }
    {
        let (address, dynamic_node_properties) = copies_of(
            &self.address,
            &self.dynamic_node_properties,
        )?;
        let (filter, default_outcome) = copies_of(&self.filter, &self.default_outcome)?;
        let (outcomes, capabilities) = copies_of(&self.outcomes, &self.capabilities)?;
        Ok(Source {
            address,
            durable: self.durable,
            expiry_policy: self.expiry_policy,
            timeout: self.timeout,
            dynamic: self.dynamic,
            dynamic_node_properties,
            distribution_mode: self.distribution_mode,
            filter,
            default_outcome,
            outcomes,
            capabilities,
        })
    }
}

impl Clone for Target {
    ghost is_clone = { λ target copy. copy ≡ target };

    ghost is_infallible = { λ target. target_carries_more target ≡ false };

    fn clone(&self) -> Result<Target, AllocError>
        ensures copy { IfOk result (λ copy. copy ≡ self.now) }
        ensures memory { OnErr result (target_carries_more self.now ≡ true) }
    {
        Ok(Target {
            address: copy_of(&self.address)?,
            durable: self.durable,
            expiry_policy: self.expiry_policy,
            timeout: self.timeout,
            dynamic: self.dynamic,
            dynamic_node_properties: copy_of(&self.dynamic_node_properties)?,
            capabilities: copy_of(&self.capabilities)?,
        })
    }
}

impl Clone for TargetArchetype {
    ghost is_clone = { λ archetype copy. copy ≡ archetype };

    ghost is_infallible = { λ archetype. archetype_carries_more archetype ≡ false };

    fn clone(&self) -> Result<TargetArchetype, AllocError>
        ensures copy { IfOk result (λ copy. copy ≡ self.now) }
        ensures memory { OnErr result (archetype_carries_more self.now ≡ true) }
    {
        let TargetArchetype::Target(target) = self;
        Ok(TargetArchetype::Target(target.clone()?))
    }
}
