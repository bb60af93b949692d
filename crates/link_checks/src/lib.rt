//! What holds of all that a link sends and keeps, and no contract of a single call says: no frame is past its limit, `more` is
//! set exactly where a transfer follows, no tag is twice in a map.
#![tactic(auto)]

mod checks;
mod stop;

pub use checks::{are_distinct, check_attach, check_transfers};
pub use stop::{Check, Stop, holds};
