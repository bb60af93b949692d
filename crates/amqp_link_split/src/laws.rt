//! What follows from the definitions that contracts cite, without any call.
//!
//! Each function here does nothing: its contract is the law.
ghost use Rattle.std.specs.Prelude.{◌≡◌, ℕ, List, length, map, true};
ghost use Rattle.std.specs.List.{concat};
ghost use Rattle.amqp_link_types.specs.Frames.{AreFramesOf, payload_of};
ghost use Rattle.amqp_link_types.specs.declared.frame.LinkFrame.{LinkFrame as TheFrame};
ghost use Rattle.amqp_link_types.specs.declared.types.definitions.InputHandle.{InputHandle as TheHandle};
ghost use Rattle.amqp_link_types.specs.declared.types.transfer.Transfer.{Transfer as TheTransfer};
ghost use Rattle.amqp_link_split.specs.Fitting.{IsFitting};
ghost use Rattle.amqp_link_split.specs.Room.{has_room, payload_limit};
ghost use Rattle.amqp_link_split.specs.Split.{IsSplit, IsFewestPieces};

/// The pieces of a split, in order, are the payload, and no fewer pieces of that size are (2.7.5).
pub fn split_pieces_are_the_payload()
    ensures joined { (payload : List ℕ) (limit : ℕ) (pieces : List (List ℕ))
        → IsSplit payload limit pieces → concat pieces ≡ payload }
    ensures fewest { (payload : List ℕ) (limit : ℕ) (pieces : List (List ℕ))
        → IsSplit payload limit pieces → IsFewestPieces payload limit (length pieces) }
{}

/// The frames of a transfer for which a frame has room fit the frame limit, if their payloads are a split at the
/// payload limit, and no fewer pieces of the payload limit are the payload (2.3, 2.7.5).
pub fn frames_of_a_split_fit()
    ensures { (handle : TheHandle) (transfer : TheTransfer) (limit : ℕ) (payload : List ℕ) (frames : List TheFrame)
        → has_room transfer limit payload ≡ true
        → IsSplit payload (payload_limit transfer limit) (map payload_of frames)
        → AreFramesOf handle transfer frames → IsFitting transfer limit payload frames }
{}
