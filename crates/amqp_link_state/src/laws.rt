//! What follows from the definitions that contracts cite, without any call.
//!
//! Each function here does nothing: its contract is the law.
ghost use Rattle.std.specs.Prelude.{◌≡◌, ◌≤◌, ℕ, ℤ, true};
ghost use Rattle.amqp_link_types.specs.declared.types.performatives.LinkFlow.{LinkFlow};
ghost use Rattle.amqp_link_state.specs.Counts.{after_consuming, count_limit, given_back, sdiff, sender_after, sender_keeping};
ghost use Rattle.amqp_link_state.specs.declared.state.LinkFlowStateInner.{LinkFlowStateInner as TheLinkFlowStateInner};
ghost use Rattle.amqp_link_state.specs.Serial.{IsSerialDifference};

/// The serial difference of any two numbers lies from -2^31 to 2^31 - 1 and is their difference modulo 2^32.
/// It is the only such number (RFC 1982).
pub fn serial_difference_is_the_nearest()
    ensures nearest { (a b : ℕ) → IsSerialDifference a b (sdiff a b) }
    ensures only { (a b : ℕ) (z : ℤ) → IsSerialDifference a b z → z ≡ sdiff a b }
{}

/// Of the credit that a sender keeps of a flow that drains, each is spent on a delivery or given back, once: whatever number
/// it spends, once the rest is given back its count is where it is if it gives all back at once. (2.6.7)
pub fn each_credit_is_spent_or_given_back()
    ensures { (flow : LinkFlow) (old : TheLinkFlowStateInner) (n : ℕ) → flow.drain ≡ true → n ≤ (sender_keeping flow old).link_credit
        → given_back (after_consuming n (sender_keeping flow old)) ≡ sender_after flow old }
{}
