//! What follows from the bytes of a delivery alone: the positions and places of sections, and the message
//! that the bytes are decoded as (OASIS AMQP 1.0 core, 3.2 and 3.4.1).
#![tactic(auto)]

pub mod error;
pub mod laws;
pub mod message;
pub mod payload;
pub mod position;

pub use error::DecodeError;
pub use message::data_body::DataBody;
pub use message::whole::Whole;
pub use message::{FromBody, Message};
pub use payload::Payload;
