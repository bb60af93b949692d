//! The world of a pair of link endpoints of AMQP 1.0: what each call does to it, what holds after any list of
//! calls, and why (OASIS AMQP 1.0 core, 2.6 and 2.7).
//!
//! But for the conversions of its error, this crate has no code that runs. It has the types that the definitions speak of: the calls and their
//! answers as values, the error, and what a pair keeps of each delivery. The contracts of the pair cite the
//! definitions; the theorems are the functions of `laws`.
#![tactic(auto)]

pub mod error;
pub mod event;
pub mod laws;
pub mod progress;

pub use error::PairError;
pub use event::{Answer, AnswerOf, Event};
pub use progress::Progress;
