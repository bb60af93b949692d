//! The room that a frame has for a payload (2.3 and 2.7.5).
ghost use Rattle.std.specs.Prelude.{◌≡◌, ◌<◌, ◌+◌, ◌-◌, length, min, nat_le, Some, IfSome, IfNone, true, false};
ghost use Rattle.amqp_link_values.specs.Length.{IsU64Of};
ghost use Rattle.amqp_link_split.specs.Room.{has_room};
ghost use Rattle.amqp_link_split.specs.Room;

use amqp_link_types::types::{Payload, Transfer};
use amqp_link_values::length::EncodedLen;

// The length of a transfer at its longest. The transfer stays as it is.
fn worst(transfer: &mut Transfer) -> Option<u64>
    ensures value { IsU64Of (Room.worst transfer.old) result }
    ensures same { transfer.new ≡ transfer.old }
{
    let delivery_id = transfer.delivery_id;
    let more = transfer.more;
    transfer.delivery_id = Some(u32::MAX);
    transfer.more = true;
    let length = transfer.encoded_len();
    transfer.delivery_id = delivery_id;
    transfer.more = more;
    length
}

// The length of a transfer at its longest, with a tag of these bytes in place of its own. The transfer stays
// as it is.
fn worst_with_tag(transfer: &mut Transfer, tag: &[u8]) -> Option<u64>
    ensures value { IsU64Of (Room.worst (record transfer.old { delivery_tag = Some tag.now })) result }
    ensures same { transfer.new ≡ transfer.old }
{
    let delivery_id = transfer.delivery_id;
    let more = transfer.more;
    transfer.delivery_id = Some(u32::MAX);
    transfer.more = true;
    let length = transfer.encoded_len_with_tag(tag);
    transfer.delivery_id = delivery_id;
    transfer.more = more;
    length
}

// The payload limit beside this transfer: none if the frame has no room. Does not allocate.
pub fn payload_limit(
    transfer: &mut Transfer,
    max_frame_size: u32,
    payload: &Payload,
) -> Option<usize>
    ensures room { IfSome result (λ limit. has_room transfer.old max_frame_size payload.now ≡ true) }
    ensures limit { IfSome result (λ limit. limit ≡ Room.payload_limit transfer.old max_frame_size) }
    ensures some { IfSome result (λ limit. 0 < length payload.now → 0 < limit) }
    ensures none { IfNone result (has_room transfer.old max_frame_size payload.now ≡ false) }
    ensures same { transfer.new ≡ transfer.old }
{
    limit_beside(worst(transfer)?, max_frame_size, payload)
}

// The same of the transfer with a tag of these bytes in place of its own.
pub fn payload_limit_with_tag(
    transfer: &mut Transfer,
    tag: &[u8],
    max_frame_size: u32,
    payload: &Payload,
) -> Option<usize>
    ensures room { IfSome result (λ limit.
        has_room (record transfer.old { delivery_tag = Some tag.now }) max_frame_size payload.now ≡ true) }
    ensures limit { IfSome result (λ limit.
        limit ≡ Room.payload_limit (record transfer.old { delivery_tag = Some tag.now }) max_frame_size) }
    ensures some { IfSome result (λ limit. 0 < length payload.now → 0 < limit) }
    ensures none { IfNone result
        (has_room (record transfer.old { delivery_tag = Some tag.now }) max_frame_size payload.now ≡ false) }
    ensures same { transfer.new ≡ transfer.old }
{
    limit_beside(worst_with_tag(transfer, tag)?, max_frame_size, payload)
}

// The payload limit beside a transfer of this length: none if the frame has no room.
fn limit_beside(transfer_len: u64, max_frame_size: u32, payload: &Payload) -> Option<usize>
    ensures room { IfSome result (λ limit.
        nat_le (4 + transfer_len + min 1 (length payload.now)) max_frame_size ≡ true) }
    ensures limit { IfSome result (λ limit. limit ≡ max_frame_size - 4 - transfer_len) }
    ensures some { IfSome result (λ limit. 0 < length payload.now → 0 < limit) }
    ensures none { IfNone result
        (nat_le (4 + transfer_len + min 1 (length payload.now)) max_frame_size ≡ false) }
{
    let frame = u64::from(max_frame_size);
    let limit = frame.checked_sub(4)?.checked_sub(transfer_len)?;
    if limit == 0 && !payload.is_empty() {
        return None;
    }
    Some(limit as usize)
}
