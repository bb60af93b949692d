//! The sender of a link.

pub use amqp_link_sender::sender_link::{
    DispositionAnswer, SenderAttachExchange, SenderLink, Sending, Waiting,
};
