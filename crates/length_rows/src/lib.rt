//! Rows of encoded lengths that encoders of AMQP 1.0 gave, or that were worked by hand: a line with the type of a
//! value, its length, the encoder's name or `hand`, and the value.
//!
//! `row::compare` builds the value of a line, and compares its computed length with the one that the line states.
#![tactic(auto)]

pub mod row;
