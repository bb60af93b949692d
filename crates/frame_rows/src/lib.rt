//! Rows of frames: one frame that arrives at a link endpoint, one call of its user, or one stated fact a line.
//!
//! `row` has the rows, and `reading` how each is written.
#![tactic(auto)]

pub mod reading;
pub mod row;
mod words;
