//! What follows from the definitions that contracts cite, without any call.
//!
//! Each function here does nothing: its contract is the law.
ghost use Rattle.std.specs.Prelude.{◌≡◌, ◌≢◌, ℕ, Bool, List, Option, None, map, is_some};
ghost use Rattle.std.specs.List.{AllByRecursion, IsDistinct, filter, flat_map};
ghost use Rattle.std.specs.Map.{keys_of};
ghost use Rattle.std.specs.Str.{bytes_eq};
ghost use Rattle.amqp_link_runs.specs.Order.{sorted_by};
ghost use Rattle.amqp_link_types.specs.declared.delivery.UnsettledMessage.{UnsettledMessage};
ghost use Rattle.amqp_link_types.specs.declared.frame.LinkFrame.{LinkFrame};
ghost use Rattle.amqp_link_types.specs.declared.types.definitions.ReceiverSettleMode.{ReceiverSettleMode};
ghost use Rattle.amqp_link_types.specs.declared.types.delivery_state.DeliveryState.{DeliveryState};
ghost use Rattle.amqp_link_types.specs.Deliveries.{Info};
ghost use Rattle.amqp_link_types.specs.Entries.{Tag, Entries, entry_at};
ghost use Rattle.amqp_link_dispositions.specs.Ending.{settled_of};
ghost use Rattle.amqp_link_dispositions.specs.Listed.{kept_in_order};
ghost use Rattle.amqp_link_dispositions.specs.DispositionFrames.{CoverRuns, CoverGroups, numbers_named_by};

/// The ids that a sender's dispositions cover are the listed ones, sorted, each as often as it is listed.
pub fn frames_name_what_is_listed()
    ensures { (settled : Bool) (state : DeliveryState) (batchable : Bool) (ids : List ℕ) (frames : List LinkFrame)
        → CoverRuns settled state batchable ids frames → flat_map numbers_named_by frames ≡ sorted_by (λ id. id) ids }
{}

/// The ids that a receiver's dispositions cover are those of the listed deliveries that have an entry,
/// sorted, each as often as it is listed.
pub fn frames_name_what_is_kept<V>()
    ensures { (given : Option Bool) (own : ReceiverSettleMode) (state : DeliveryState) (batchable : Bool)
        (es : Entries V) (infos : List Info) (frames : List LinkFrame)
        → CoverGroups given own state batchable (kept_in_order es infos) frames
        → flat_map numbers_named_by frames ≡ sorted_by (λ id. id)
        (map (λ info. info.delivery_id) (filter (λ info. is_some (entry_at es info.delivery_tag)) infos)) }
{}

/// Of the deliveries that a sender settles, each that has an entry is resolved once, however often its tag is
/// listed, and no other is.
pub fn each_ends_once()
    ensures once { (es : Entries UnsettledMessage) (tags : List Tag) → IsDistinct bytes_eq (keys_of (settled_of es tags)) }
    ensures entry { (es : Entries UnsettledMessage) (tags : List Tag)
        → AllByRecursion (λ ended. entry_at es ended.0 ≢ None) (settled_of es tags) }
{}
