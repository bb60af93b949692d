//! Two attached link endpoints with frames under way in both directions: credit is never passed.

pub use amqp_link_credit::{Arrival, CreditRun, CreditRunError};
