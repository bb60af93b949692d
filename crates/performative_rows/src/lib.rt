//! Performatives, and the values that they are made of, in words (OASIS AMQP 1.0 core, 1.6, 2.7, 3.4 and 3.5): the name of
//! the type, the number of fields, and the fields in the standard's order, `_` for one that is absent.
//!
//! A `Reader` has the words of a line, and `ReadFrom` reads a value of them.
#![tactic(auto)]

pub mod error;
pub mod fields;
mod flow;
mod performative;
pub mod reader;
mod state;
mod terminus;
mod value;
pub mod verdict;
