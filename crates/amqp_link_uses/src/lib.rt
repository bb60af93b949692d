//! Callers to copy from: how a program uses `amqp_link`, each proved from the contracts of the calls alone.
//!
//! - `short`: the two shortest callers, one that sends and one that receives.
//! - `client`: sends a request, and gets its outcome once.
//! - `consumer`: hands out each message that arrives once, and accepts it, through lost sessions.
//! - `broker`: receives deliveries, sends each on along another link, and settles it by the outcome that it
//!   gets there.
//! - `peer`: drives a link endpoint by frames, and names the first one that the table of link states refuses.
//! - `relay`: keeps what it sent when a link is cut, and resumes each delivery at the position that the peer
//!   reports.
//! - `walk`: the smallest whole run of a pair, through a cut.
//! - `window`: a receiver that grants credit while transfers are under way.
#![tactic(auto)]

pub mod broker;
pub mod client;
pub mod consumer;
pub mod peer;
pub mod relay;
pub mod short;
pub mod walk;
pub mod window;
