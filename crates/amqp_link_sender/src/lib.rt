//! The sender's endpoint of a link of AMQP 1.0 (OASIS AMQP 1.0 core, 2.6).
#![tactic(auto)]

pub mod sender_link;

pub use sender_link::{DispositionAnswer, SenderAttachExchange, SenderLink, Sending, Waiting};
