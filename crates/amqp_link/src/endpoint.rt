//! The traits of a link endpoint, the parts that a link is made with, and what to do once an attach is
//! refused, with the kinds of it that the contract of `handle_attach_error` speaks of.

pub use amqp_link_endpoint::endpoint::detached::detach_frame;
pub use amqp_link_endpoint::endpoint::failing::{Action, AttachFailure, Condition, Remedy};
pub use amqp_link_endpoint::endpoint::target::LinkTarget;
pub use amqp_link_endpoint::endpoint::{Link, LinkAttach, LinkDetach, LinkExt};
pub use amqp_link_endpoint::link_parts::LinkParts;
