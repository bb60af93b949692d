//! The targets that a link can have (3.5.4).
ghost use Rattle.std.specs.Prelude.{◌≡◌, Option, Some};
ghost use Rattle.amqp_link_types.specs.declared.types.terminus.TargetArchetype.{TargetArchetype as TheTargetArchetype};

use amqp_link_types::types::{Target, TargetArchetype};
use amqp_link_verification::VerifyTargetArchetype;

/// A target that a link can have: it is sent as a `TargetArchetype`, and one that arrives is taken if it is
/// of the link's kind; it can be verified.
pub trait LinkTarget: Clone + Drop + VerifyTargetArchetype {
    // What is sent for it.
    ghost sent_as: { Self → TheTargetArchetype };

    // What a target that arrives is taken as, if it is of this kind.
    ghost admitted: { TheTargetArchetype → Option Self };

    /// What is sent for the target. Does not allocate.
    fn into_archetype(self) -> TargetArchetype
        ensures { result ≡ sent_as self };

    /// The target that the peer's stands for, if it is of this kind. Does not allocate.
    fn from_archetype(archetype: TargetArchetype) -> Option<Self>
        ensures { result ≡ admitted archetype };
}

impl LinkTarget for Target {
    ghost use Rattle.amqp_link_types.specs.declared.types.terminus.TargetArchetype.TheVariants as archetype;
    ghost use Rattle.amqp_link_endpoint.specs.Targets.{plain_target};

    ghost sent_as = { λ target. archetype.Target target };

    ghost admitted = { plain_target };

    fn into_archetype(self) -> TargetArchetype {
        TargetArchetype::Target(self)
    }

    fn from_archetype(archetype: TargetArchetype) -> Option<Target> {
        let TargetArchetype::Target(target) = archetype;
        Some(target)
    }
}

impl LinkTarget for TargetArchetype {
    ghost use Rattle.std.specs.Prelude.{Some};

    ghost sent_as = { λ archetype. archetype };

    ghost admitted = { λ archetype. Some archetype };

    fn into_archetype(self) -> TargetArchetype {
        self
    }

    fn from_archetype(archetype: TargetArchetype) -> Option<TargetArchetype> {
        Some(archetype)
    }
}
