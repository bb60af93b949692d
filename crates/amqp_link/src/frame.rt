//! The frames of a link, and the transfer fields that the frames after a delivery's first leave out.

pub use amqp_link_types::frame::{
    LinkFrame, LinkTransfer, clear_continuation_fields, continuation_of,
};
