//! Lists of calls on an inbox, and what holds after any of them, whatever its peer sends (OASIS AMQP 1.0 core, 2.6.12,
//! 2.6.13 and 2.7.5).
#![tactic(auto)]

pub mod call;
pub mod laws;
pub mod lists;

pub use call::{AnswerOf, Call};
pub use lists::run;
