//! Whether the source and the target of the peer's attach are as the standard requires (3.5.3, 3.5.4).

pub use amqp_link_verification::{
    FilterError, VariantOfTargetArchetype, VerifySource, VerifyTargetArchetype, verify_filter,
};
