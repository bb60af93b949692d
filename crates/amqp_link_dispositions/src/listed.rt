//! Lists of elements that are sorted by their delivery ids.
ghost use Rattle.std.specs.Prelude.{◌≡◌, map, IfOk};

use amqp_link_types::types::DeliveryNumber;
use std::alloc::{AllocError, Global};

/// The elements without their ids, in their order.
pub(crate) fn elements_of<'a, T>(
    alloc: Global,
    pairs: &[(DeliveryNumber, &'a T)],
) -> Result<Vec<&'a T>, AllocError>
    ensures { IfOk result (λ elements. elements.items ≡ map (λ pair. pair.1) pairs.now) }
{
    let mut elements = Vec::with_capacity(alloc, pairs.len())?;
    for (_, element) in pairs {
        elements.push(*element)?;
    }
    Ok(elements)
}
