//! The numbers of the pending registrations by tag, hashed.
ghost use Rattle.std.specs.Prelude.{◌≡◌, ◌<◌, ◌≤◌, if◌then◌else◌, is_some};
ghost use Rattle.std.specs.Str.{bytes_eq};
ghost use Rattle.indexmap.specs.IndexMap.{spare};
ghost use Rattle.amqp_link_types.specs.Entries.{Tag, entry_at};

use amqp_link_types::types::DeliveryTag;
use indexmap::IndexMap;

// Whether a tag has a number.
pub(crate) fn has_number(numbers: &IndexMap<DeliveryTag, usize>, tag: &DeliveryTag) -> bool
    ensures { result ≡ is_some (entry_at numbers.now.entries tag.now) }
{
    numbers.get(tag).is_some()
}

// Removes the number of a tag.
pub(crate) fn take_number(
    numbers: &mut IndexMap<DeliveryTag, usize>,
    tag: &DeliveryTag,
) -> Option<usize>
    ensures number { result ≡ entry_at numbers.old.entries tag.now }
    ensures at { (other : Tag) → entry_at numbers.new.entries other
        ≡ (if bytes_eq tag.now other then None else entry_at numbers.old.entries other) }
    ensures room { spare numbers.old ≤ spare numbers.new }
{
    numbers.swap_remove(tag)
}

// Sets the number of a tag that has none, if there is room.
pub(crate) fn put_number(
    numbers: &mut IndexMap<DeliveryTag, usize>,
    tag: DeliveryTag,
    number: usize,
)
    requires { 0 < spare numbers.old }
    ensures { (other : Tag) → entry_at numbers.new.entries other
        ≡ (if bytes_eq tag other then Some number else entry_at numbers.old.entries other) }
{
    let _ = numbers.insert(tag, number);
}
