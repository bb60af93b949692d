//! Two link endpoints and the wire between them, through any interruptions.

pub use amqp_link_pair::{
    Answer, AnswerOf, Arrived, Event, OrAborted, Pair, PairError, Progress, Resumed, Sent,
};
