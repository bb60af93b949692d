//! The merged fields of the transfers of one delivery (2.7.5).
ghost use Rattle.std.specs.Prelude.{◌≡◌, ◌++◌, [], ◌∷◌, List, Option, Bool};
ghost use Rattle.amqp_link_types.specs.declared.types.delivery_state.DeliveryState.{DeliveryState as TheDeliveryState};
ghost use Rattle.amqp_link_core.specs.Merging.{Came, Merged, present, settled_by, state_by};

use amqp_link_types::types::{DeliveryState, Transfer, has_ended};

// The settled flag of a delivery after merging one transfer.
#[tactic(auto, using(crate::proofs::MergeLemmas::settled_steps))]
fn settled_with(known: Option<bool>, carried: Option<bool>) -> Option<bool>
    ensures { (flags : List (Option Bool)) → known ≡ settled_by (present flags)
        → result ≡ settled_by (present (flags ++ carried ∷ [])) }
{
    if carried.unwrap_or(false) {
        carried
    } else {
        known.or(carried)
    }
}

// The state of a delivery after merging one transfer.
#[tactic(auto, using(crate::proofs::MergeLemmas::state_steps))]
fn state_with(known: Option<DeliveryState>, carried: Option<DeliveryState>) -> Option<DeliveryState>
    ensures { (states : List (Option TheDeliveryState)) → known ≡ state_by (present states)
        → result ≡ state_by (present (states ++ carried ∷ [])) }
{
    if has_ended(&known) {
        known.or(carried)
    } else {
        carried.or(known)
    }
}

// Merges one more transfer into those of a delivery; one that resumes it gives it its id. Does not allocate.
pub(crate) fn merge(held: &mut Transfer, transfer: Transfer, opens: bool)
    ensures { (came : List Came) → Merged came held.old
        → Merged (came ++ record { opens = opens; transfer = transfer } ∷ []) held.new }
{
    if opens {
        held.delivery_id = transfer.delivery_id;
    }
    held.message_format = held.message_format.or(transfer.message_format);
    held.settled = settled_with(held.settled, transfer.settled);
    held.state = state_with(held.state.take(), transfer.state);
}
