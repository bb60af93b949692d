//! What C holds of the layer: an object that a C program allocates, which has a value of the layer or nothing.
#![tactic(auto)]

pub mod holder;
mod loose;
pub mod object;
pub mod state;

pub use object::{Object, Room};
pub use state::State;
