//! The values that cross to C as they are: numbers for statuses and modes, bytes, and structs without a pointer.
#![tactic(auto)]

pub mod attach;
pub mod delivery_state;
pub mod detach;
pub mod disposition;
pub mod flow;
pub mod numbers;
pub mod status;
pub mod terms;
pub mod texts;
pub mod transfer;
