//! Runs rows of frames: each frame that arrives at a link endpoint, and each call of its user.
//!
//! `endpoint` makes the calls of a sender's or a receiver's link, and `trace` runs the rows of a trace over it. `replay_report`
//! compares what an endpoint has made with what is stated, and `replay_report::replay` replays the rows of a reader.
#![tactic(auto)]

mod endpoint;
mod receiver;
mod refusal;
mod returned;
mod sender;
pub mod trace;
