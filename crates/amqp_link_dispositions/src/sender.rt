//! The dispositions that a sender sends and takes, and the outcomes of its deliveries.
ghost use Rattle.std.specs.Prelude.{◌≡◌, ◌≢◌, ◌∷◌, [], List, ℕ, false, map, IfOk, OnOk, OnErr};
ghost use Rattle.amqp_link_runs.specs.Order.{sorted_by};
ghost use Rattle.amqp_link_dispositions.specs.Listed.{tags_in_order};
ghost use Rattle.amqp_link_dispositions.specs.Ending.{ended_of, disposed, ended_by, map_after_receiver_disposition};
ghost use Rattle.amqp_link_dispositions.specs.DispositionFrames.{CoverRuns, disposition_of_run};

use crate::changes::{changes_to, set_each, settle_all};
use crate::listed::elements_of;
use amqp_link_runs::{Run, runs_of, sort_by_id};
use amqp_link_types::delivery::{DeliveryOutcome, Outcomes, UnsettledMessage};
use amqp_link_types::frame::LinkFrame;
use amqp_link_types::types::unsettled_map::UnsettledMap;
use amqp_link_types::types::{
    DeliveryNumber, DeliveryState, DeliveryTag, Disposition, Role, has_ended,
};
use std::alloc::{AllocError, Global};

fn frame_of(run: Run, settled: bool, state: DeliveryState, batchable: bool) -> LinkFrame
    ensures { result ≡ disposition_of_run settled state batchable run }
{
    let last = if run.first == run.last {
        None
    } else {
        Some(run.last)
    };
    LinkFrame::Disposition(Disposition {
        role: Role::Sender,
        first: run.first,
        last,
        settled,
        state: Some(state),
        batchable,
    })
}

// The dispositions of runs.
fn frames_of_runs(
    alloc: Global,
    runs: &[Run],
    settled: bool,
    state: &DeliveryState,
    batchable: bool,
) -> Result<Vec<LinkFrame>, AllocError>
    ensures { IfOk result (λ frames. frames.items ≡ map (disposition_of_run settled state.now batchable) runs.now) }
{
    let mut frames = Vec::with_capacity(alloc, runs.len())?;
    for run in runs {
        frames.push(frame_of(*run, settled, state.clone()?, batchable))?;
    }
    Ok(frames)
}

// The dispositions of sorted ids.
fn frames_of(
    alloc: Global,
    ids: &[DeliveryNumber],
    settled: bool,
    state: &DeliveryState,
    batchable: bool,
) -> Result<Vec<LinkFrame>, AllocError>
    ensures { IfOk result (λ frames. (listed : List ℕ) → sorted_by (λ id. id) listed ≡ ids.now
        → CoverRuns settled state.now batchable listed frames.items) }
{
    let runs = runs_of(alloc, ids)?;
    frames_of_runs(alloc, runs.as_slice(), settled, state, batchable)
}

// The ids and the tags of deliveries, sorted by the ids.
fn in_order<'a>(
    alloc: Global,
    listed: &'a [(DeliveryNumber, DeliveryTag)],
) -> Result<(Vec<DeliveryNumber>, Vec<&'a DeliveryTag>), AllocError>
    ensures ids { IfOk result (λ sorted.
        sorted.0.items ≡ sorted_by (λ id. id) (map (λ pair. pair.0) listed.now)) }
    ensures tags { IfOk result (λ sorted.
        map (λ tag. tag.now) sorted.1.items ≡ tags_in_order listed.now) }
{
    let mut sorted = Vec::with_capacity(alloc, listed.len())?;
    for (id, tag) in listed {
        sorted.push((*id, tag))?;
    }
    sort_by_id(&mut sorted)?;
    let ids = sorted.iter().map(|pair| pair.0).collect(alloc)?;
    let tags = elements_of(alloc, sorted.as_slice())?;
    Ok((ids, tags))
}

// The dispositions of deliveries with sorted ids, whose tags have the same order, and the outcomes of those that
// they settle; the map changes with them.
fn dispose_sorted(
    alloc: Global,
    unsettled: &mut UnsettledMap<UnsettledMessage>,
    ids: &[DeliveryNumber],
    tags: &[&DeliveryTag],
    settled: bool,
    state: DeliveryState,
    batchable: bool,
) -> Result<(Vec<LinkFrame>, Outcomes), AllocError>
    ensures frames { IfOk result (λ answer. (listed : List ℕ) → sorted_by (λ id. id) listed ≡ ids.now
        → CoverRuns settled state batchable listed answer.0.items) }
    ensures outcomes { IfOk result (λ answer. answer.1.items
        ≡ ended_of settled (map (λ tag. tag.now) tags.now) unsettled.old) }
    ensures after { OnOk result (unsettled.new
        ≡ disposed settled state (map (λ tag. tag.now) tags.now) unsettled.old) }
    ensures left { OnErr result (unsettled.new ≡ unsettled.old) }
{
    let frames = match frames_of(alloc, ids, settled, &state, batchable) {
        Ok(frames) => frames,
        Err(refused) => {
            drop(state);
            return Err(refused);
        }
    };
    if settled {
        drop(state);
        let mut outcomes = Vec::with_capacity(alloc, tags.len().min(unsettled.len()))?;
        settle_all(unsettled, tags, &mut outcomes);
        return Ok((frames, outcomes));
    }
    let changes = changes_to(alloc, tags, &state);
    drop(state);
    set_each(unsettled, changes?);
    Ok((frames, Vec::new(alloc)))
}

// The disposition of one delivery.
fn frame_of_one(
    alloc: Global,
    id: DeliveryNumber,
    settled: bool,
    state: DeliveryState,
    batchable: bool,
) -> Result<Vec<LinkFrame>, AllocError>
    ensures { IfOk result (λ frames. CoverRuns settled state batchable (id ∷ []) frames.items) }
{
    let mut frames = match Vec::with_capacity(alloc, 1) {
        Ok(frames) => frames,
        Err(refused) => {
            drop(state);
            return Err(refused);
        }
    };
    let run = Run {
        first: id,
        last: id,
    };
    frames.push(frame_of(run, settled, state, batchable))?;
    Ok(frames)
}

// Sets the state of one delivery that is not settled, and returns its disposition.
fn state_of_one(
    alloc: Global,
    unsettled: &mut UnsettledMap<UnsettledMessage>,
    delivery_id: DeliveryNumber,
    delivery_tag: &DeliveryTag,
    state: DeliveryState,
    batchable: bool,
) -> Result<(Vec<LinkFrame>, Outcomes), AllocError>
    ensures frames { IfOk result (λ answer.
        CoverRuns false state batchable (delivery_id ∷ []) answer.0.items) }
    ensures outcomes { IfOk result (λ answer. answer.1.items ≡ []) }
    ensures after { OnOk result (unsettled.new
        ≡ disposed false state (delivery_tag.now ∷ []) unsettled.old) }
    ensures left { OnErr result (unsettled.new ≡ unsettled.old) }
{
    let kept = match state.clone() {
        Ok(kept) => kept,
        Err(refused) => {
            drop(state);
            return Err(refused);
        }
    };
    match frame_of_one(alloc, delivery_id, false, state, batchable) {
        Ok(frames) => {
            unsettled.set_state(delivery_tag, Some(kept));
            Ok((frames, Vec::new(alloc)))
        }
        Err(refused) => {
            drop(kept);
            Err(refused)
        }
    }
}

/// The disposition of one delivery, with this state, settled or not. If it settles a delivery that has an
/// entry, that leaves the unsettled map and is resolved with the state stored in the entry; otherwise the
/// entry, if there is one, gets this state.
///
/// Refused only if it is out of memory, with nothing changed.
pub fn dispose(
    alloc: Global,
    unsettled: &mut UnsettledMap<UnsettledMessage>,
    delivery_id: DeliveryNumber,
    delivery_tag: &DeliveryTag,
    settled: bool,
    state: DeliveryState,
    batchable: bool,
) -> Result<(Vec<LinkFrame>, Outcomes), AllocError>
    ensures frames { IfOk result (λ answer.
        CoverRuns settled state batchable (delivery_id ∷ []) answer.0.items) }
    ensures outcomes { IfOk result (λ answer. answer.1.items
        ≡ ended_of settled (delivery_tag.now ∷ []) unsettled.old) }
    ensures after { OnOk result (unsettled.new
        ≡ disposed settled state (delivery_tag.now ∷ []) unsettled.old) }
    ensures left { OnErr result (unsettled.new ≡ unsettled.old) }
{
    if !settled {
        return state_of_one(
            alloc,
            unsettled,
            delivery_id,
            delivery_tag,
            state,
            batchable,
        );
    }
    let mut outcomes = match Vec::with_capacity(alloc, 1) {
        Ok(outcomes) => outcomes,
        Err(refused) => {
            drop(state);
            return Err(refused);
        }
    };
    let frames = frame_of_one(alloc, delivery_id, true, state, batchable)?;
    // From here on nothing can fail.
    if let Some((tag, message)) = unsettled.remove_entry(delivery_tag) {
        drop(outcomes.push((tag, message.settle())));
    }
    Ok((frames, outcomes))
}

/// The same of several deliveries, sorted by delivery id; those of one id stay in the order in which they are
/// listed. The dispositions cover each id as often as it is listed.
///
/// Refused only if it is out of memory, with nothing changed. Of an empty list it does not allocate.
pub fn batch_dispose(
    alloc: Global,
    unsettled: &mut UnsettledMap<UnsettledMessage>,
    listed: &[(DeliveryNumber, DeliveryTag)],
    settled: bool,
    state: DeliveryState,
    batchable: bool,
) -> Result<(Vec<LinkFrame>, Outcomes), AllocError>
    ensures frames { IfOk result (λ answer.
        CoverRuns settled state batchable (map (λ pair. pair.0) listed.now) answer.0.items) }
    ensures outcomes { IfOk result (λ answer. answer.1.items
        ≡ ended_of settled (tags_in_order listed.now) unsettled.old) }
    ensures after { OnOk result (unsettled.new
        ≡ disposed settled state (tags_in_order listed.now) unsettled.old) }
    ensures memory { OnErr result (listed.now ≢ []) }
    ensures left { OnErr result (unsettled.new ≡ unsettled.old) }
{
    if listed.is_empty() {
        drop(state);
        return Ok((Vec::new(alloc), Vec::new(alloc)));
    }
    let (ids, tags) = match in_order(alloc, listed) {
        Ok(sorted) => sorted,
        Err(refused) => {
            drop(state);
            return Err(refused);
        }
    };
    dispose_sorted(
        alloc,
        unsettled,
        ids.as_slice(),
        tags.as_slice(),
        settled,
        state,
        batchable,
    )
}

/// Takes the receiver's disposition of one delivery. If it settles the delivery or its state is terminal, the
/// delivery leaves the unsettled map and is resolved with this state, or with none; otherwise its entry, if
/// there is one, gets this state, or none. Does not allocate.
pub fn on_incoming_disposition(
    unsettled: &mut UnsettledMap<UnsettledMessage>,
    settled: bool,
    state: Option<DeliveryState>,
    delivery_tag: &DeliveryTag,
) -> Option<(DeliveryTag, DeliveryOutcome)>
    ensures ended { result ≡ ended_by settled state delivery_tag.now unsettled.old }
    ensures after { unsettled.new ≡ map_after_receiver_disposition settled state delivery_tag.now unsettled.old }
{
    if !settled && !has_ended(&state) {
        unsettled.set_state(delivery_tag, state);
        return None;
    }
    let Some((tag, message)) = unsettled.remove_entry(delivery_tag) else {
        drop(state);
        return None;
    };
    Some((tag, message.settle_with_state(state)))
}
