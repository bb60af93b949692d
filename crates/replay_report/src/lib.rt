//! What rows of frames come to: what an endpoint has made is compared with what is stated of it, each row is counted, and the
//! counts make the report.
//!
//! `made` keeps what an endpoint has made and no row has stated yet, and `compare` compares; `replay` replays the lines of a
//! reader over anything that runs them, and writes each fact that differs.
#![tactic(auto)]

pub mod answer;
pub mod compare;
pub mod laws;
pub mod made;
pub mod replay;
pub mod tally;
