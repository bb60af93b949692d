//! What follows from the definitions that contracts cite, without any call.
//!
//! Each function here does nothing: its contract is the law.
ghost use Rattle.std.specs.Prelude.{◌≡◌, ◌++◌, ◌||◌, List, ℕ, is_some, if◌then◌else◌};
ghost use Rattle.std.specs.List.{count_by};
ghost use Rattle.std.specs.Map.{keys_of};
ghost use Rattle.std.specs.Str.{bytes_eq};
ghost use Rattle.amqp_link_payloads.specs.Position.{position};
ghost use Rattle.amqp_link_types.specs.declared.delivery.UnsettledMessage.{UnsettledMessage};
ghost use Rattle.amqp_link_types.specs.Entries.{Tag, Entries, IsMap, entry_at};
ghost use Rattle.amqp_link_endpoint.specs.Attaching.{States};
ghost use Rattle.amqp_link_core.specs.Resuming.{rest_from};
ghost use Rattle.amqp_link_exchange.specs.Exchanges.{deliveries_to_resume, outcomes_returned};

/// In an exchange each tag of either unsettled map is answered once, by the list or by an outcome, and no
/// other tag is (2.6.13).
pub fn each_tag_is_answered_once()
    ensures { (own : Entries UnsettledMessage) (remote : States) → IsMap own → IsMap remote → (tag : Tag)
        → count_by (bytes_eq tag) (keys_of (deliveries_to_resume own remote) ++ keys_of (outcomes_returned own remote))
        ≡ (if is_some (entry_at own tag) || is_some (entry_at remote tag) then 1 else 0) }
{}

/// The front of a payload that the receiver reports by its position, and the rest that the sender computes
/// from that position, joined are the payload (2.6.13, 3.4.1).
pub fn front_and_rest_are_the_payload()
    ensures { (front rest : List ℕ)
        → rest_from (front ++ rest) (position front).0 (position front).1 ≡ rest }
{}
