//! What follows from the definitions that contracts cite, without any call.
//!
//! Each function here does nothing: its contract is the law.
ghost use Rattle.std.specs.Prelude.{◌≡◌, ◌++◌, ◌↔◌, List, Some, true, false, unwrap_or};
ghost use Rattle.std.specs.List.{list_any};
ghost use Rattle.amqp_link_types.specs.declared.types.transfer.Transfer.{Transfer};
ghost use Rattle.amqp_link_types.specs.declared.types.delivery_state.DeliveryState.{DeliveryState};
ghost use Rattle.amqp_link_types.specs.DeliveryStates.{is_terminal};
ghost use Rattle.amqp_link_core.specs.Merging.{Came, Merged};

/// A merged delivery is settled exactly if some transfer was, and a terminal state never changes
/// (2.7.5, 3.4).
pub fn merging_keeps_settlement_and_outcome()
    ensures settled { (came : List Came) (merged : Transfer) → Merged came merged
        → (merged.settled ≡ Some true)
        ↔ (list_any (λ c. unwrap_or c.transfer.settled false) came ≡ true) }
    ensures outcome { (came more : List Came) (old new : Transfer) (state : DeliveryState)
        → Merged came old → Merged (came ++ more) new
        → old.state ≡ Some state → is_terminal state ≡ true → new.state ≡ Some state }
{}
