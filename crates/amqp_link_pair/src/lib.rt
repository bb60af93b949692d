//! Two endpoints of a link through any interruptions (OASIS AMQP 1.0 core, 2.6.12, 2.6.13 and 2.7.5), without
//! IO.
//!
//! A `Pair` joins a sender with a ledger of its registrations, a receiver, and the wire from the sender to
//! the receiver. What holds of it is defined and proved in `amqp_link_worlds`.
#![tactic(auto)]

mod deliveries;
mod ends;
pub mod pair;
pub mod receiving;
mod resuming;
mod sending;
mod wire;

pub use amqp_link_worlds::error::PairError;
pub use amqp_link_worlds::event::{Answer, AnswerOf, Event};
pub use amqp_link_worlds::progress::Progress;
pub use pair::{Arrived, OrAborted, Pair, Resumed, Sent};
