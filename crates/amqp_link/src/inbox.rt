//! A receiver's link that keeps what has arrived of each delivery, and lists of calls on it.

pub use amqp_link_inbox::{
    Arrival, Arrived, Contents, DisposeError, Forgotten, Inbox, Kept, Stage, TakeError, Undecoded,
};
pub use amqp_link_inbox_runs::{AnswerOf, Call, run};
