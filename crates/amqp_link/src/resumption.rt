//! Deliveries that are resumed once a link is attached again (2.6.13).

pub use amqp_link_core::resumption::{Resolution, ResumingDelivery, resume_delivery};
pub use amqp_link_exchange::ResumingDeliveries;
pub use amqp_link_resuming::listed::{put_back_next, resume_next};
pub use amqp_link_resuming::sending::{send_again, send_rest};
pub use amqp_link_resuming::steps::{Left, Step, put_back_one, resume_one};
