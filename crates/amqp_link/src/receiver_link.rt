//! The receiver of a link.

pub use amqp_link_receiver::receiver_link::{
    ReceiverAttachExchange, ReceiverLink, get_max_message_size,
};
