//! A payload in the frames of one delivery of AMQP 1.0 (OASIS AMQP 1.0 core, 2.3 and 2.7.5): the room that
//! a frame has for it beside its transfer, and the pieces into which it is cut.
#![tactic(auto)]

pub mod laws;
pub mod room;
pub mod split;
