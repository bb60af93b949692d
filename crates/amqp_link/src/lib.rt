//! Links and deliveries of AMQP 1.0 (OASIS AMQP 1.0 core, 2.6, 2.7 and 3.4), without IO.
//!
//! Payloads and incoming frames go in; outgoing frames, deliveries and resolved outcomes come out; no call
//! waits. Names follow fe2o3-amqp 0.18.4. A call that allocates returns a `Result`; if it is out of memory,
//! it has changed nothing. Only `Pair::attach`, which has steps, and `Pair::run`, which stops between two calls,
//! do otherwise, as their docs describe.
//!
//! Where to look:
//!
//! - `sender_link` and `receiver_link`, the two link endpoints; `ledger`, a sender that records what became of
//!   each delivery; `inbox`, a receiver that keeps what has arrived of each; `endpoint`, the traits of all four.
//! - `pair`, two endpoints and the wire between them; `credit_run`, two endpoints with frames under way in both
//!   directions.
//! - `delivery`, what is sent and received, and its outcome; `incomplete_transfer`, a delivery whose last
//!   transfer has not arrived; `resumption`, deliveries that are resumed once a link is attached again.
//! - `frame` and `types`, the performatives and all that they carry; `state`, link states and credit; `errors`.
//! - `position`, how far into a message a number of bytes reaches; `verification` of sources and targets; `laws`,
//!   what holds over the definitions that contracts cite.
//!
//! The names that a caller of links needs are re-exported here as well.
#![tactic(auto)]

pub mod credit_run;
pub mod delivery;
pub mod endpoint;
pub mod errors;
pub mod frame;
pub mod inbox;
pub mod incomplete_transfer;
pub mod laws;
pub mod ledger;
pub mod pair;
pub mod position;
pub mod receiver_link;
pub mod resumption;
pub mod sender_link;
pub mod state;
pub mod types;
pub mod verification;

pub use delivery::{Delivery, DeliveryInfo, Sendable};
pub use endpoint::{Link, LinkAttach, LinkDetach, LinkExt, LinkParts};
pub use frame::{LinkFrame, LinkTransfer};
pub use inbox::Inbox;
pub use incomplete_transfer::IncompleteTransfer;
pub use ledger::{Fate, OutcomeLedger};
pub use receiver_link::ReceiverLink;
pub use sender_link::{SenderLink, Sending, Waiting};
pub use types::{DeliveryState, DeliveryTag, Payload, Whole};
