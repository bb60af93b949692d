//! The values of AMQP 1.0 that a link's performatives carry, and how many bytes each takes (OASIS
//! AMQP 1.0 core, 1.3 and 1.6).
//!
//! A type that holds a buffer or a map has a model of plain data: contracts see a tag as its bytes
//! and a map as its pairs, so `≡` on what holds them is the equality that a reader means, and a copy
//! is equal to its original.
#![tactic(auto)]

pub mod boxed;
pub mod copy;
pub mod delivery_tag;
pub mod fields;
pub mod length;
pub mod symbol;
pub mod symbols;
pub mod text;
pub mod value;

pub use boxed::Boxed;
pub use delivery_tag::DeliveryTag;
pub use fields::{Fields, FilterSet};
pub use length::EncodedLen;
pub use symbol::Symbol;
pub use symbols::Symbols;
pub use text::Text;
pub use value::{Descriptor, Value};
