//! What the crates of tests share: links, attaches and calls for the tests of both link endpoints, the kinds of
//! refusals, and the table of link states of the standard (OASIS AMQP 1.0 core, 2.6.3 to 2.6.6). Only tests call
//! it.
#![tactic(auto)]

pub mod calls;
pub mod links;
pub mod refusals;
pub mod table;
