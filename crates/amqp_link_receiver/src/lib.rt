//! The receiver's endpoint of a link of AMQP 1.0 (OASIS AMQP 1.0 core, 2.6).
#![tactic(auto)]

pub mod receiver_link;

pub use receiver_link::{ReceiverAttachExchange, ReceiverLink, get_max_message_size};
