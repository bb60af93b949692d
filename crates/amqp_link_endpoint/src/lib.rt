//! What both endpoints of a link share, whatever their role and target (OASIS AMQP 1.0 core, 2.6 and 2.7): what a
//! link is made with, the traits of an endpoint and what it shows, and how an attach and a detach move its state.
#![tactic(auto)]

pub mod endpoint;
pub mod link_inner;
pub mod link_parts;
pub mod link_role;

pub use link_parts::LinkParts;
