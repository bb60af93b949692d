//! Two attached endpoints of a link with frames under way in both directions: credit is never passed (OASIS AMQP
//! 1.0 core, 2.6.7).
#![tactic(auto)]

pub mod credit_run;
pub mod error;
pub mod laws;
mod queue;

pub use credit_run::{Arrival, CreditRun};
pub use error::CreditRunError;
