//! Sources and targets, as a row gives them.
use crate::error::RowError;
use crate::fields::{FieldReader, if_read};
use crate::reader::{ReadFrom, Reader, value_of};
use amqp_link_types::types::{
    DistributionMode, Source, Symbol, Target, TargetArchetype, TerminusDurability,
    TerminusExpiryPolicy,
};

impl ReadFrom for TerminusDurability {
    fn read(reader: &mut Reader) -> Result<TerminusDurability, RowError> {
        match u32::read(reader)? {
            0 => Ok(TerminusDurability::None),
            1 => Ok(TerminusDurability::Configuration),
            2 => Ok(TerminusDurability::UnsettledState),
            _ => Err(RowError::NotARow),
        }
    }
}

const EXPIRY_POLICIES: &[(&str, TerminusExpiryPolicy)] = &[
    ("link-detach", TerminusExpiryPolicy::LinkDetach),
    ("session-end", TerminusExpiryPolicy::SessionEnd),
    ("connection-close", TerminusExpiryPolicy::ConnectionClose),
    ("never", TerminusExpiryPolicy::Never),
];

const DISTRIBUTION_MODES: &[(&str, DistributionMode)] = &[
    ("move", DistributionMode::Move),
    ("copy", DistributionMode::Copy),
];

impl ReadFrom for TerminusExpiryPolicy {
    fn read(reader: &mut Reader) -> Result<TerminusExpiryPolicy, RowError> {
        let name = Symbol::read(reader)?;
        value_of(EXPIRY_POLICIES, name.as_str().as_bytes())
    }
}

impl ReadFrom for DistributionMode {
    fn read(reader: &mut Reader) -> Result<DistributionMode, RowError> {
        let name = Symbol::read(reader)?;
        value_of(DISTRIBUTION_MODES, name.as_str().as_bytes())
    }
}

impl ReadFrom for Source {
    fn read(reader: &mut Reader) -> Result<Source, RowError> {
        let mut fields = FieldReader::new(reader, b"source")?;
        let source = Source {
            address: fields.optional(),
            durable: fields.or_default(),
            expiry_policy: fields.or_default(),
            timeout: fields.or_default(),
            dynamic: fields.or_default(),
            dynamic_node_properties: fields.optional(),
            distribution_mode: fields.optional(),
            filter: fields.optional(),
            default_outcome: fields.optional(),
            outcomes: fields.optional(),
            capabilities: fields.optional(),
        };
        if_read(source, fields.end())
    }
}

impl ReadFrom for Target {
    fn read(reader: &mut Reader) -> Result<Target, RowError> {
        let mut fields = FieldReader::new(reader, b"target")?;
        let target = Target {
            address: fields.optional(),
            durable: fields.or_default(),
            expiry_policy: fields.or_default(),
            timeout: fields.or_default(),
            dynamic: fields.or_default(),
            dynamic_node_properties: fields.optional(),
            capabilities: fields.optional(),
        };
        if_read(target, fields.end())
    }
}

impl ReadFrom for TargetArchetype {
    fn read(reader: &mut Reader) -> Result<TargetArchetype, RowError> {
        Ok(TargetArchetype::from(Target::read(reader)?))
    }
}
