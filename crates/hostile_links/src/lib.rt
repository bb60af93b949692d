//! What is the same in the lives of both endpoints of a link: how the link is made, detached and lost, and how refused calls are
//! counted.
#![tactic(auto)]

pub mod ending;
pub mod links;
pub mod phases;
pub mod refusals;
