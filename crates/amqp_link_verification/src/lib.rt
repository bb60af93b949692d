//! Whether the termini of the peer's attach are valid (OASIS AMQP 1.0 core, 3.5.3, 3.5.4 and 3.5.8).
//!
//! Each endpoint verifies the peer's terminus beside its own, as a sender or as a receiver. A terminus that
//! is refused is reported by an error of the attach; the link's calls state what they leave after it.
#![tactic(auto)]

pub mod filter;
pub mod source;
pub mod target;

pub use filter::{FilterError, verify_filter};
pub use source::VerifySource;
pub use target::{VariantOfTargetArchetype, VerifyTargetArchetype};
