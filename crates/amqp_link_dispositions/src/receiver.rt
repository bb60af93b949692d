//! The dispositions that a receiver sends and takes, and its unsettled map afterwards.
ghost use Rattle.std.specs.Prelude.{◌≡◌, ◌∷◌, [], false, not, filter, map, is_some, IsSome, None, Some, IfOk, OnOk, OnErr, if◌then◌else◌};
ghost use Rattle.amqp_link_types.specs.Entries.{entry_at};
ghost use Rattle.amqp_link_dispositions.specs.Changes.{StateChange};
ghost use Rattle.amqp_link_dispositions.specs.Keeping.{is_settled_one, tags_of, after_dispositions};
ghost use Rattle.amqp_link_dispositions.specs.Keeping.{disposition_of_one, after_one, map_after_sender_disposition};
ghost use Rattle.amqp_link_dispositions.specs.Listed;
ghost use Rattle.amqp_link_dispositions.specs.DispositionFrames.{CoverGroups, is_settled_by, disposition_frame, disposition_of_group};
ghost use Rattle.amqp_link_types.specs.declared.types.definitions.Role.TheVariants as role;

use crate::changes::{changes_to, remove_all, set_each};
use crate::groups::{Group, groups_of};
use crate::listed::elements_of;
use amqp_link_runs::sort_by_id;
use amqp_link_types::delivery::DeliveryInfo;
use amqp_link_types::frame::LinkFrame;
use amqp_link_types::types::unsettled_map::UnsettledMap;
use amqp_link_types::types::{
    DeliveryNumber, DeliveryState, DeliveryTag, Disposition, ReceiverSettleMode, Role,
};
use std::alloc::{AllocError, Global};

/// How a receiver disposes of deliveries: the flags that its user passes, and the link's own mode.
#[derive(Clone, Copy, Debug, PartialEq, Eq)]
pub struct Settling {
    /// Whether they are settled, if the user passes it.
    pub given: Option<bool>,
    /// The mode of the link.
    pub own: ReceiverSettleMode,
    /// Whether the sender may delay its own disposition.
    pub batchable: bool,
}

impl Settling {
    // Whether a delivery of this mode is settled: as the user passes, otherwise by its own mode, otherwise by
    // the link's.
    fn settles(self, mode: Option<ReceiverSettleMode>) -> bool
        ensures { result ≡ is_settled_by self.given self.own mode }
    {
        let by_mode = match mode.unwrap_or(self.own) {
            ReceiverSettleMode::First => true,
            ReceiverSettleMode::Second => false,
        };
        self.given.unwrap_or(by_mode)
    }

    fn frame(
        self,
        first: DeliveryNumber,
        last: Option<DeliveryNumber>,
        mode: Option<ReceiverSettleMode>,
        state: DeliveryState,
    ) -> LinkFrame
        ensures { result ≡ disposition_frame role.Receiver first last (is_settled_by self.given self.own mode) state self.batchable }
    {
        LinkFrame::Disposition(Disposition {
            role: Role::Receiver,
            first,
            last,
            settled: self.settles(mode),
            state: Some(state),
            batchable: self.batchable,
        })
    }

    // The dispositions of groups.
    fn frames(
        self,
        alloc: Global,
        groups: &[Group],
        state: &DeliveryState,
    ) -> Result<Vec<LinkFrame>, AllocError>
        ensures { IfOk result (λ frames. frames.items ≡ map (disposition_of_group self.given self.own state.now self.batchable) groups.now) }
    {
        let mut frames = Vec::with_capacity(alloc, groups.len())?;
        for group in groups {
            let state = state.clone()?;
            frames.push(self.frame(group.run.first, Some(group.run.last), group.mode, state))?;
        }
        Ok(frames)
    }
}

// Those of these deliveries that have an entry, sorted by delivery id.
fn kept_in_order<'a>(
    alloc: Global,
    unsettled: &UnsettledMap<Option<DeliveryState>>,
    infos: &'a [DeliveryInfo],
) -> Result<Vec<&'a DeliveryInfo>, AllocError>
    ensures { IfOk result (λ kept. map (λ info. info.now) kept.items ≡ Listed.kept_in_order unsettled.now infos.now) }
{
    let mut kept = Vec::new(alloc);
    for info in infos {
        if unsettled.contains(info.delivery_tag()) {
            kept.push((info.delivery_id(), info))?;
        }
    }
    sort_by_id(&mut kept)?;
    Ok(elements_of(alloc, kept.as_slice())?)
}

// The tags of those that are settled, and of the others.
fn parted<'a>(
    alloc: Global,
    infos: &[&'a DeliveryInfo],
    how: Settling,
) -> Result<(Vec<&'a DeliveryTag>, Vec<&'a DeliveryTag>), AllocError>
    ensures settled { IfOk result (λ tags. map (λ tag. tag.now) tags.0.items
        ≡ tags_of (filter (is_settled_one how.given how.own) (map (λ info. info.now) infos.now))) }
    ensures open { IfOk result (λ tags. map (λ tag. tag.now) tags.1.items
        ≡ tags_of (filter (λ info. not (is_settled_one how.given how.own info)) (map (λ info. info.now) infos.now))) }
{
    let mut settled = Vec::new(alloc);
    let mut open = Vec::new(alloc);
    for info in infos {
        if how.settles(info.rcv_settle_mode()) {
            settled.push(info.delivery_tag())?;
        } else {
            open.push(info.delivery_tag())?;
        }
    }
    Ok((settled, open))
}

/// The disposition of one delivery, with this state, settled or not. A settled delivery leaves the unsettled
/// map; otherwise its entry gets this state. A delivery without an entry gets no disposition.
///
/// Refused if it is out of memory, with nothing changed, and only for a delivery that has an entry and is not
/// settled.
#[tactic(auto, using(crate::proofs::ListLemmas::unmoved))]
pub fn dispose(
    unsettled: &mut UnsettledMap<Option<DeliveryState>>,
    info: &DeliveryInfo,
    how: Settling,
    state: DeliveryState,
) -> Result<Option<LinkFrame>, AllocError>
    ensures frame { IfOk result (λ frame.
        frame ≡ disposition_of_one how.given how.own state how.batchable info.now unsettled.old) }
    ensures after { OnOk result (unsettled.new ≡ after_one (is_settled_one how.given how.own info.now) state
        info.now.delivery_tag unsettled.old) }
    ensures kept_on { OnErr result (is_settled_one how.given how.own info.now ≡ false) }
    ensures known { OnErr result (IsSome (entry_at unsettled.old info.now.delivery_tag)) }
    ensures left { OnErr result (unsettled.new ≡ unsettled.old) }
{
    let tag = info.delivery_tag();
    if !unsettled.contains(tag) {
        drop(state);
        return Ok(None);
    }
    let mode = info.rcv_settle_mode();
    if how.settles(mode) {
        drop(unsettled.remove(tag));
    } else {
        let Ok(known) = state.clone() else {
            drop(state);
            return Err(AllocError);
        };
        unsettled.set_state(tag, Some(known));
    }
    Ok(Some(how.frame(info.delivery_id(), None, mode, state)))
}

/// The same of several deliveries, sorted by delivery id; those of one id stay in the order in which they are
/// listed. A disposition covers as many as it can: consecutive ids, in one mode. It always has `last`. A
/// settled delivery does not get an entry again, even if it is listed twice.
///
/// Refused only if it is out of memory, with nothing changed.
pub fn dispose_all(
    alloc: Global,
    unsettled: &mut UnsettledMap<Option<DeliveryState>>,
    infos: &[DeliveryInfo],
    how: Settling,
    state: DeliveryState,
) -> Result<Vec<LinkFrame>, AllocError>
    ensures frames { IfOk result (λ frames. CoverGroups how.given how.own state how.batchable
        (Listed.kept_in_order unsettled.old infos.now) frames.items) }
    ensures after { OnOk result (unsettled.new ≡ after_dispositions (is_settled_one how.given how.own) state
        (Listed.kept_in_order unsettled.old infos.now) unsettled.old) }
    ensures left { OnErr result (unsettled.new ≡ unsettled.old) }
{
    let plan = planned(alloc, unsettled, infos, how, &state);
    drop(state);
    let Plan {
        frames,
        settled,
        changes,
    } = plan?;
    // All allocations are done: from here on nothing can fail.
    set_each(unsettled, changes);
    remove_all(unsettled, settled.as_slice());
    Ok(frames)
}

// The frames and the changes of dispositions, made before anything is changed.
#[derive(Drop)]
struct Plan<'a> {
    frames: Vec<LinkFrame>,
    settled: Vec<&'a DeliveryTag>,
    changes: Vec<(&'a DeliveryTag, DeliveryState)>,
}

fn planned<'a>(
    alloc: Global,
    unsettled: &UnsettledMap<Option<DeliveryState>>,
    infos: &'a [DeliveryInfo],
    how: Settling,
    state: &DeliveryState,
) -> Result<Plan<'a>, AllocError>
    ensures frames { IfOk result (λ plan. CoverGroups how.given how.own state.now how.batchable
        (Listed.kept_in_order unsettled.now infos.now) plan.frames.items) }
    ensures settled { IfOk result (λ plan. map (λ tag. tag.now) plan.settled.items
        ≡ tags_of (filter (is_settled_one how.given how.own) (Listed.kept_in_order unsettled.now infos.now))) }
    ensures changes { IfOk result (λ plan. map {B = StateChange} (λ change. (change.0.now, change.1)) plan.changes.items
        ≡ map {B = StateChange} (λ tag. (tag, state.now)) (tags_of (filter (λ info. not (is_settled_one how.given how.own info))
        (Listed.kept_in_order unsettled.now infos.now)))) }
{
    let kept = kept_in_order(alloc, unsettled, infos)?;
    let groups = groups_of(alloc, kept.as_slice())?;
    let frames = how.frames(alloc, groups.as_slice(), state)?;
    let (settled, open) = parted(alloc, kept.as_slice(), how)?;
    let changes = changes_to(alloc, open.as_slice(), state)?;
    Ok(Plan {
        frames,
        settled,
        changes,
    })
}

/// Takes the sender's disposition of one delivery: a settled one leaves the unsettled map; otherwise its
/// entry, if there is one, gets this state, or none. Does not allocate.
pub fn on_incoming_disposition(
    unsettled: &mut UnsettledMap<Option<DeliveryState>>,
    settled: bool,
    state: Option<DeliveryState>,
    delivery_tag: &DeliveryTag,
)
    ensures { unsettled.new ≡ map_after_sender_disposition settled state delivery_tag.now unsettled.old }
{
    if settled {
        drop(unsettled.remove(delivery_tag));
        drop(state);
    } else {
        unsettled.set_state(delivery_tag, state);
    }
}
