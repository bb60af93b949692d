//! How many bytes a source and a target take (3.5.3 and 3.5.4).
#![tactic(auto, using(crate::proofs::Sizes::sizes))]

ghost use Rattle.std.specs.Prelude.{◌≡◌};
ghost use Rattle.amqp_link_types.specs.Size.{durable_field, expiry_field, timeout_field};
ghost use Rattle.amqp_link_types.specs.Size.{distribution_len, source_len, target_len, archetype_len};

use crate::size::{before, before_flag, before_optional, described};
use crate::types::{
    DistributionMode, Source, Target, TargetArchetype, TerminusDurability, TerminusExpiryPolicy,
};
use amqp_link_values::length::EncodedLen;
use amqp_link_values::length::value::unsigned_len;

// The symbols `move` and `copy` have four letters each.
impl EncodedLen for DistributionMode {
    ghost len_of = { distribution_len };

    fn encoded_len(&self) -> Option<u64> {
        Some(6)
    }
}

// ---- fields with a default, which is a null

fn durable_len(durable: TerminusDurability) -> Option<u64>
    ensures { result ≡ durable_field durable }
{
    match durable {
        TerminusDurability::None => None,
        TerminusDurability::Configuration => Some(2), // the number 1
        TerminusDurability::UnsettledState => Some(2), // the number 2
    }
}

fn expiry_len(policy: TerminusExpiryPolicy) -> Option<u64>
    ensures { result ≡ expiry_field policy }
{
    match policy {
        TerminusExpiryPolicy::LinkDetach => Some(13), // link-detach
        TerminusExpiryPolicy::SessionEnd => None,
        TerminusExpiryPolicy::ConnectionClose => Some(18), // connection-close
        TerminusExpiryPolicy::Never => Some(7), // never
    }
}

fn timeout_len(timeout: u32) -> Option<u64>
    ensures { result ≡ timeout_field timeout }
{
    if timeout == 0 {
        None
    } else {
        Some(unsigned_len(5, u64::from(timeout)))
    }
}

// ---- termini

impl EncodedLen for Source {
    ghost len_of = { source_len };

    fn encoded_len(&self) -> Option<u64> {
        let rest = before_optional(&self.capabilities, 0)?;
        let rest = before_optional(&self.outcomes, rest)?;
        let rest = before_optional(&self.default_outcome, rest)?;
        let rest = before_optional(&self.filter, rest)?;
        let rest = before_optional(&self.distribution_mode, rest)?;
        let rest = before_optional(&self.dynamic_node_properties, rest)?;
        let rest = before_flag(self.dynamic, rest)?;
        let rest = before(timeout_len(self.timeout), rest)?;
        let rest = before(expiry_len(self.expiry_policy), rest)?;
        let rest = before(durable_len(self.durable), rest)?;
        let rest = before_optional(&self.address, rest)?;
        described(rest)
    }
}

impl EncodedLen for Target {
    ghost len_of = { target_len };

    fn encoded_len(&self) -> Option<u64> {
        let rest = before_optional(&self.capabilities, 0)?;
        let rest = before_optional(&self.dynamic_node_properties, rest)?;
        let rest = before_flag(self.dynamic, rest)?;
        let rest = before(timeout_len(self.timeout), rest)?;
        let rest = before(expiry_len(self.expiry_policy), rest)?;
        let rest = before(durable_len(self.durable), rest)?;
        let rest = before_optional(&self.address, rest)?;
        described(rest)
    }
}

impl EncodedLen for TargetArchetype {
    ghost len_of = { archetype_len };

    fn encoded_len(&self) -> Option<u64> {
        let TargetArchetype::Target(target) = self;
        target.encoded_len()
    }
}
