//! Deliveries in runs of numbers that are settled in one mode.
ghost use Rattle.std.specs.Prelude.{◌≡◌, ◌++◌, ◌∷◌, ◌↔◌, [], List, map, IfOk, IsTrue};
ghost use Rattle.amqp_link_dispositions.specs.Groups.{AreGroups, Numbered, numbered};

use amqp_link_runs::Run;
use amqp_link_types::delivery::DeliveryInfo;
use amqp_link_types::types::{DeliveryNumber, ReceiverSettleMode};
use std::alloc::{AllocError, Global};

/// Deliveries whose ids make one run, and which are settled in the same mode; none if the link's mode
/// decides.
#[derive(Clone, Copy, Debug, PartialEq, Eq)]
pub struct Group {
    /// The delivery ids.
    pub run: Run,
    /// The mode of each of them.
    pub mode: Option<ReceiverSettleMode>,
}

fn is_same(mode: Option<ReceiverSettleMode>, other: Option<ReceiverSettleMode>) -> bool
    ensures { IsTrue result ↔ (mode ≡ other) }
{
    match (mode, other) {
        (None, None) => true,
        (Some(ReceiverSettleMode::First), Some(ReceiverSettleMode::First)) => true,
        (Some(ReceiverSettleMode::Second), Some(ReceiverSettleMode::Second)) => true,
        _ => false,
    }
}

// The group after one more delivery: the current one, extended, or a new one that begins with the delivery.
fn next_group(
    groups: &mut Vec<Group>,
    current: Group,
    id: DeliveryNumber,
    mode: Option<ReceiverSettleMode>,
) -> Result<Group, AllocError>
    ensures { IfOk result (λ next. (deliveries : List Numbered)
        → AreGroups deliveries (groups.old.items ++ current ∷ [])
        → AreGroups (deliveries ++ (id, mode) ∷ []) (groups.new.items ++ next ∷ [])) }
{
    if is_same(current.mode, mode) && current.run.last.checked_add(1) == Some(id) {
        let first = current.run.first;
        let run = Run { first, last: id };
        return Ok(Group { run, mode });
    }
    groups.push(current)?;
    let run = Run {
        first: id,
        last: id,
    };
    Ok(Group { run, mode })
}

/// The longest groups of these deliveries, in the order in which they are listed: a group is extended only by
/// the next id, and in the same mode.
pub(crate) fn groups_of(alloc: Global, infos: &[&DeliveryInfo]) -> Result<Vec<Group>, AllocError>
    ensures { IfOk result (λ groups. AreGroups (map numbered (map (λ info. info.now) infos.now)) groups.items) }
{
    let mut groups = Vec::new(alloc);
    let Some((first, rest)) = infos.split_first() else {
        return Ok(groups);
    };
    let id = first.delivery_id();
    let mut current = Group {
        run: Run {
            first: id,
            last: id,
        },
        mode: first.rcv_settle_mode(),
    };
    for info in rest {
        current = next_group(
            &mut groups,
            current,
            info.delivery_id(),
            info.rcv_settle_mode(),
        )?;
    }
    groups.push(current)?;
    Ok(groups)
}
