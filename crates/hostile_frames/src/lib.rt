//! Frames of peers that are wrong or hostile, and what a link makes of them.
//!
//! A run makes lives of link endpoints: a sender that records what becomes of its deliveries, or an inbox. The frames of a
//! peer arrive there, as a correct one sends them or changed: lost, doubled, in another order, with any numbers, tags, flags,
//! states, modes and unsettled maps. Between two frames the endpoint's user makes calls: it attaches, sends, resumes, takes,
//! settles, grants credit, detaches, loses its session. After each call it is checked what no contract of a single call says
//! (`Check`).
//!
//! All is decided by a seed, so that a run that breaks a check can be made again.
#![tactic(auto)]

mod broken;
mod runs;

pub use broken::Broken;
pub use link_checks::Check;
pub use peer_frames::reached::{NAMES, Reached};
pub use runs::run;
