//! What the programs share: why one ends early, the attach of a peer, and words for what a transfer has made.
#![tactic(auto)]

mod attaches;
mod refused;
mod words;

pub use attaches::attach_of;
pub use refused::{Refused, done};
pub use words::arrival_word;
