//! How far into a message a number of bytes reaches: by sections, and by bytes since the last one began (3.4.1).

pub use amqp_link_core::position_carry::PositionCarry;
pub use amqp_link_payloads::position::{place_of, position_of};
