//! A receiver's link endpoint that keeps what has arrived of each delivery, over any number of attachments (OASIS AMQP
//! 1.0 core, 2.6.12, 2.6.13 and 2.7.5).
#![tactic(auto)]

pub mod arrival;
mod deliveries;
pub mod error;
pub mod inbox;
pub mod kept;
pub mod laws;
mod settled;

pub use arrival::{Arrival, Arrived};
pub use error::{DisposeError, TakeError, Undecoded};
pub use inbox::{Forgotten, Inbox};
pub use kept::{Contents, Kept, Stage};
