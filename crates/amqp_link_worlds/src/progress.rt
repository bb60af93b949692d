//! How far one delivery of a pair has come.

use amqp_link_core::incomplete_transfer::IncompleteTransfer;
use amqp_link_types::types::Boxed;

/// How far a delivery has come, from its send until it is settled.
///
/// Whether it was sent or resumed in this attachment follows from these fields, the sender's map and the
/// pair's phase (`is_out` in specs/Worlds.antt), so that a cut changes no delivery.
#[derive(Debug, Drop)]
pub struct Progress {
    /// What the receiver holds of it, in memory of its own: none before its first transfer has arrived.
    pub held: Option<Boxed<IncompleteTransfer>>,
    /// Whether its last transfer has arrived.
    pub whole: bool,
    /// Whether its entry was put back without being sent, and was neither sent nor resumed since.
    pub put_back: bool,
    /// Whether the receiver has handed it out.
    pub taken: bool,
    /// Whether it was withdrawn. The receiver still holds something of it then, until it is aborted.
    pub withdrawn: bool,
}
