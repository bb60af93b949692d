//! The numbers that stand for modes, roles and kinds.
ghost use Rattle.std.specs.Prelude.{◌≡◌};
ghost use Rattle.amqp_link_flat.specs.Numbers.{durability_number, durability_of, expiry_number, expiry_of};
ghost use Rattle.amqp_link_flat.specs.Numbers.{receiver_mode_number, receiver_mode_of};
ghost use Rattle.amqp_link_flat.specs.Numbers.{role_number, role_of, sender_mode_number, sender_mode_of};
ghost use Rattle.amqp_link_flat.specs.Numbers.{policies_of, settle_modes_of, settled_of, state_number};

use amqp_link_state::state::LinkState;
use amqp_link_types::types::{
    ReceiverSettleMode, Role, SenderSettleMode, TerminusDurability, TerminusExpiryPolicy,
};

/// The endpoint that sends.
pub const ROLE_SENDER: u32 = 0;
/// The endpoint that receives.
pub const ROLE_RECEIVER: u32 = 1;
/// The sender sends all deliveries unsettled.
pub const SENDER_UNSETTLED: u32 = 0;
/// The sender sends all deliveries settled.
pub const SENDER_SETTLED: u32 = 1;
/// Each transfer states whether it is settled.
pub const SENDER_MIXED: u32 = 2;
/// The receiver settles as deliveries arrive.
pub const RECEIVER_FIRST: u32 = 0;
/// The receiver settles after the sender.
pub const RECEIVER_SECOND: u32 = 1;
/// Not settled.
pub const NOT_SETTLED: u32 = 0;
/// Settled.
pub const SETTLED: u32 = 1;
/// Settled or not as the mode of the delivery or of the link says.
pub const SETTLED_BY_MODE: u32 = 2;
/// Nothing of a terminus is durable.
pub const DURABLE_NONE: u32 = 0;
/// The existence and the configuration of a terminus are durable.
pub const DURABLE_CONFIGURATION: u32 = 1;
/// The unsettled deliveries of a terminus are durable as well.
pub const DURABLE_UNSETTLED_STATE: u32 = 2;
/// A terminus expires when its link is detached.
pub const EXPIRES_LINK_DETACH: u32 = 0;
/// A terminus expires when its session ends.
pub const EXPIRES_SESSION_END: u32 = 1;
/// A terminus expires when its connection closes.
pub const EXPIRES_CONNECTION_CLOSE: u32 = 2;
/// A terminus never expires.
pub const EXPIRES_NEVER: u32 = 3;
/// Neither endpoint has sent an attach.
pub const STATE_UNATTACHED: u32 = 0;
/// An attach was sent.
pub const STATE_ATTACH_SENT: u32 = 1;
/// An attach was sent whose unsettled map is incomplete.
pub const STATE_INCOMPLETE_ATTACH_SENT: u32 = 2;
/// An attach arrived.
pub const STATE_ATTACH_RECEIVED: u32 = 3;
/// An attach arrived whose unsettled map is incomplete.
pub const STATE_INCOMPLETE_ATTACH_RECEIVED: u32 = 4;
/// Both attaches were exchanged.
pub const STATE_ATTACHED: u32 = 5;
/// Both attaches were exchanged, and the unsettled map of one of them is incomplete.
pub const STATE_INCOMPLETE_ATTACH_EXCHANGED: u32 = 6;
/// A detach that does not close was sent.
pub const STATE_DETACH_SENT: u32 = 7;
/// The link is detached, and may be attached again.
pub const STATE_DETACHED: u32 = 8;
/// A detach that closes was sent.
pub const STATE_CLOSE_SENT: u32 = 9;
/// The link is closed for good.
pub const STATE_CLOSED: u32 = 10;

/// The role with this number.
pub fn role(number: u32) -> Option<Role>
    ensures { result ≡ role_of number }
{
    if number == ROLE_SENDER {
        return Some(Role::Sender);
    }
    if number == ROLE_RECEIVER {
        return Some(Role::Receiver);
    }
    None
}

/// The number of a role.
pub fn number_of_role(role: Role) -> u32
    ensures { result ≡ role_number role }
{
    match role {
        Role::Sender => ROLE_SENDER,
        Role::Receiver => ROLE_RECEIVER,
    }
}

/// The sender settle mode with this number.
pub fn sender_mode(number: u32) -> Option<SenderSettleMode>
    ensures { result ≡ sender_mode_of number }
{
    if number == SENDER_UNSETTLED {
        return Some(SenderSettleMode::Unsettled);
    }
    if number == SENDER_SETTLED {
        return Some(SenderSettleMode::Settled);
    }
    if number == SENDER_MIXED {
        return Some(SenderSettleMode::Mixed);
    }
    None
}

/// The number of a sender settle mode.
pub fn number_of_sender_mode(mode: SenderSettleMode) -> u32
    ensures { result ≡ sender_mode_number mode }
{
    match mode {
        SenderSettleMode::Unsettled => SENDER_UNSETTLED,
        SenderSettleMode::Settled => SENDER_SETTLED,
        SenderSettleMode::Mixed => SENDER_MIXED,
    }
}

/// The receiver settle mode with this number.
pub fn receiver_mode(number: u32) -> Option<ReceiverSettleMode>
    ensures { result ≡ receiver_mode_of number }
{
    if number == RECEIVER_FIRST {
        return Some(ReceiverSettleMode::First);
    }
    if number == RECEIVER_SECOND {
        return Some(ReceiverSettleMode::Second);
    }
    None
}

/// The number of a receiver settle mode.
pub fn number_of_receiver_mode(mode: ReceiverSettleMode) -> u32
    ensures { result ≡ receiver_mode_number mode }
{
    match mode {
        ReceiverSettleMode::First => RECEIVER_FIRST,
        ReceiverSettleMode::Second => RECEIVER_SECOND,
    }
}

/// Both settle modes, if each number stands for one.
pub fn settle_modes(snd: u32, rcv: u32) -> Option<(SenderSettleMode, ReceiverSettleMode)>
    ensures { result ≡ settle_modes_of snd rcv }
{
    match (sender_mode(snd), receiver_mode(rcv)) {
        (Some(snd), Some(rcv)) => Some((snd, rcv)),
        _ => None,
    }
}

/// Whether something is to be settled, with none for what its mode says; nothing if the number stands for neither.
pub fn settled(number: u32) -> Option<Option<bool>>
    ensures { result ≡ settled_of number }
{
    if number == NOT_SETTLED {
        return Some(Some(false));
    }
    if number == SETTLED {
        return Some(Some(true));
    }
    if number == SETTLED_BY_MODE {
        return Some(None);
    }
    None
}

/// The durability with this number.
pub fn durability(number: u32) -> Option<TerminusDurability>
    ensures { result ≡ durability_of number }
{
    if number == DURABLE_NONE {
        return Some(TerminusDurability::None);
    }
    if number == DURABLE_CONFIGURATION {
        return Some(TerminusDurability::Configuration);
    }
    if number == DURABLE_UNSETTLED_STATE {
        return Some(TerminusDurability::UnsettledState);
    }
    None
}

/// The number of a durability.
pub fn number_of_durability(durability: TerminusDurability) -> u32
    ensures { result ≡ durability_number durability }
{
    match durability {
        TerminusDurability::None => DURABLE_NONE,
        TerminusDurability::Configuration => DURABLE_CONFIGURATION,
        TerminusDurability::UnsettledState => DURABLE_UNSETTLED_STATE,
    }
}

/// The expiry policy with this number.
pub fn expiry(number: u32) -> Option<TerminusExpiryPolicy>
    ensures { result ≡ expiry_of number }
{
    if number == EXPIRES_LINK_DETACH {
        return Some(TerminusExpiryPolicy::LinkDetach);
    }
    if number == EXPIRES_SESSION_END {
        return Some(TerminusExpiryPolicy::SessionEnd);
    }
    if number == EXPIRES_CONNECTION_CLOSE {
        return Some(TerminusExpiryPolicy::ConnectionClose);
    }
    if number == EXPIRES_NEVER {
        return Some(TerminusExpiryPolicy::Never);
    }
    None
}

/// The number of an expiry policy.
pub fn number_of_expiry(policy: TerminusExpiryPolicy) -> u32
    ensures { result ≡ expiry_number policy }
{
    match policy {
        TerminusExpiryPolicy::LinkDetach => EXPIRES_LINK_DETACH,
        TerminusExpiryPolicy::SessionEnd => EXPIRES_SESSION_END,
        TerminusExpiryPolicy::ConnectionClose => EXPIRES_CONNECTION_CLOSE,
        TerminusExpiryPolicy::Never => EXPIRES_NEVER,
    }
}

/// A durability and an expiry policy, if each number stands for one.
pub fn policies(durable: u32, policy: u32) -> Option<(TerminusDurability, TerminusExpiryPolicy)>
    ensures { result ≡ policies_of durable policy }
{
    match (durability(durable), expiry(policy)) {
        (Some(durable), Some(policy)) => Some((durable, policy)),
        _ => None,
    }
}

/// The number of a link's state.
pub fn number_of_state(state: LinkState) -> u32
    ensures { result ≡ state_number state }
{
    match state {
        LinkState::Unattached => STATE_UNATTACHED,
        LinkState::AttachSent => STATE_ATTACH_SENT,
        LinkState::IncompleteAttachSent => STATE_INCOMPLETE_ATTACH_SENT,
        LinkState::AttachReceived => STATE_ATTACH_RECEIVED,
        LinkState::IncompleteAttachReceived => STATE_INCOMPLETE_ATTACH_RECEIVED,
        LinkState::Attached => STATE_ATTACHED,
        LinkState::IncompleteAttachExchanged => STATE_INCOMPLETE_ATTACH_EXCHANGED,
        LinkState::DetachSent => STATE_DETACH_SENT,
        LinkState::Detached => STATE_DETACHED,
        LinkState::CloseSent => STATE_CLOSE_SENT,
        LinkState::Closed => STATE_CLOSED,
    }
}
