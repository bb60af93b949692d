//! The exchange of a sender's unsettled map with the receiver's (2.6.13), in two halves.
ghost use Rattle.std.specs.Prelude.{◌≡◌, ◌≢◌, ◌+◌, ◌<◌, ◌≤◌, ◌++◌, ◌∷◌, [], true, None, Some, slice_set, IfOk, OnOk, OnErr, map, length, vec_len, vec_capacity};
ghost use Rattle.amqp_link_types.specs.Entries.{IsMap};
ghost use Rattle.amqp_link_endpoint.specs.Attaching.{States};
ghost use Rattle.amqp_link_core.specs.Resuming.{does_carry_tag};
ghost use Rattle.amqp_link_exchange.specs.Exchanges.{deliveries_to_resume, outcomes_returned};
ghost use Rattle.amqp_link_exchange.specs.Plans.{Pairwise, IsStepFor, IsPlanOf, IsResolvable, IsProgress};
ghost use Rattle.amqp_link_exchange.specs.Plans.{resumed_by, ended_by_steps, ended_count, resumed_count};

use crate::resuming::ResumingDeliveries;
use amqp_link_core::resumption::{
    PlannedResolution, Resolution, ResumingDelivery, plan_resumption,
};
use amqp_link_types::delivery::{DeliveryOutcome, Outcomes, UnsettledMessage};
use amqp_link_types::types::unsettled_map::UnsettledMap;
use amqp_link_types::types::{DeliveryState, DeliveryTag};
use indexmap::map::Slice;
use std::alloc::{AllocError, Global};
use std::marker::Model;
use std::mem;

/// How one delivery of the sender's map is resolved.
#[derive(Debug, Drop)]
pub struct Step {
    /// How its entry is resolved.
    pub plan: PlannedResolution,
    /// Its tag, if what is sent of it carries the tag.
    pub tag: Option<DeliveryTag>,
}

/// The first half of an exchange: how each delivery of the sender's map is resolved, the aborts of those that
/// only the receiver knows, and room for all that the second half returns.
///
/// A contract sees the steps, in the order of the map, and the aborts.
#[derive(Debug, Drop)]
pub struct ExchangePlan {
    steps: Vec<Step>,
    aborts: Vec<(DeliveryTag, ResumingDelivery)>,
    list: Vec<(DeliveryTag, ResumingDelivery)>,
    outcomes: Outcomes,
}

impl Model for ExchangePlan {
    ghost use Rattle.std.specs.Prelude.{◌≡◌, ◌+◌, ◌<◌, ◌≤◌, [], length, vec_capacity};
    ghost use Rattle.amqp_link_exchange.specs.Plans.{Planned, resumed_count, ended_count};
    ghost use Rattle.amqp_link_values.specs.contracts.fields.Fields as fields;
    ghost use Rattle.std.specs.Coded.{codes};

    ghost Value = { Planned };

    ghost coded = { Prim.hlevel (codes, fields.the_row.coded) };

    ghost view = { λ plan. record { steps = plan.steps.items; aborts = plan.aborts.items } };

    ghost invariant = { λ plan. (plan.list.items ≡ []) × (plan.outcomes.items ≡ [])
        × (resumed_count plan.steps.items + length plan.aborts.items ≤ vec_capacity plan.list)
        × (ended_count plan.steps.items ≤ vec_capacity plan.outcomes) };
}

// The steps of a sender's deliveries if the receiver knows none of them.
fn unreported_steps(
    alloc: Global,
    own: &UnsettledMap<UnsettledMessage>,
) -> Result<Vec<Step>, AllocError>
    ensures { IfOk result (λ steps. Pairwise (λ pair step. IsStepFor pair None step) own.now steps.items) }
{
    let mut steps = Vec::with_capacity(alloc, own.len())?;
    for (_, entry) in own.pairs() {
        let plan = plan_resumption(entry, None)?;
        steps.push(Step { plan, tag: None })?;
    }
    Ok(steps)
}

// The step of a plan for the delivery with this tag.
fn step_of(plan: PlannedResolution, tag: DeliveryTag) -> Step
    ensures plan { result.plan ≡ plan }
    ensures tag { does_carry_tag plan ≡ true → result.tag ≡ Some tag }
{
    let tag = if plan.carries_tag() { Some(tag) } else { None };
    Step { plan, tag }
}

fn set_step(steps: &mut Vec<Step>, index: usize, step: Step)
    requires { index < length steps.old.items }
    ensures { steps.new.items ≡ slice_set steps.old.items index step }
{
    drop(mem::replace(&mut steps[index], step));
}

// Reads one entry of the receiver's map: the entry's state decides the step of its delivery; a delivery that
// only the receiver knows is aborted.
fn read_report(
    own: &UnsettledMap<UnsettledMessage>,
    steps: &mut Vec<Step>,
    aborts: &mut Vec<(DeliveryTag, ResumingDelivery)>,
    tag: DeliveryTag,
    state: Option<DeliveryState>,
) -> Result<(), AllocError>
    requires distinct { IsMap own.now }
    requires each { length steps.old.items ≡ length own.now }
    ensures each { length steps.new.items ≡ length own.now }
    ensures read { OnOk result ((left remote : States)
        → IsProgress own.now (record { steps = steps.old.items; aborts = aborts.old.items })
        ((tag, state) ∷ left) remote
        → IsProgress own.now (record { steps = steps.new.items; aborts = aborts.new.items }) left remote) }
{
    let Some((index, entry)) = own.get_full(&tag) else {
        drop(state);
        let message_format = 0;
        let abort = ResumingDelivery::Abort {
            message_format,
            tag: None,
        };
        aborts.push((tag, abort))?;
        return Ok(());
    };
    let plan = plan_resumption(entry, Some(state))?;
    set_step(steps, index, step_of(plan, tag));
    Ok(())
}

/// Decides how each delivery of the sender's map is resolved, by the receiver's map as its attach has stated
/// it (2.6.13). The sender's map stays as it is.
///
/// Allocates all that the exchange needs: the plan, and room for the lists that `exchange` returns. The bytes
/// that are still to be sent of a resumed delivery share the buffer of its payload, which may be out of memory
/// too. Each entry of the receiver's map is looked up once in the sender's.
pub fn plan_exchange(
    alloc: Global,
    own: &UnsettledMap<UnsettledMessage>,
    remote: UnsettledMap<Option<DeliveryState>>,
) -> Result<ExchangePlan, AllocError>
    ensures planned { IfOk result (λ plan. IsPlanOf plan own.now remote) }
    ensures memory { OnErr result ((own.now ≡ []) × (remote ≡ []) → ⊥) }
{
    if own.len() == 0 && remote.len() == 0 {
        drop(remote);
        return Ok(ExchangePlan {
            steps: Vec::new(alloc),
            aborts: Vec::new(alloc),
            list: Vec::new(alloc),
            outcomes: Vec::new(alloc),
        });
    }
    plan_each(alloc, own, remote)
}

// The same of two maps of which at least one is not empty.
fn plan_each(
    alloc: Global,
    own: &UnsettledMap<UnsettledMessage>,
    remote: UnsettledMap<Option<DeliveryState>>,
) -> Result<ExchangePlan, AllocError>
    requires distinct { IsMap own.now }
    requires remote_distinct { IsMap remote }
    ensures { IfOk result (λ plan. IsPlanOf plan own.now remote) }
{
    let mut steps = unreported_steps(alloc, own)?;
    let mut aborts = Vec::new(alloc);
    for (tag, state) in remote.into_map() {
        read_report(own, &mut steps, &mut aborts, tag, state)?;
    }
    let resumed = resumed_among(steps.as_slice());
    let Some(count) = resumed.checked_add(aborts.len()) else {
        return Err(AllocError);
    };
    let list = Vec::with_capacity(alloc, count)?;
    let outcomes = Vec::with_capacity(alloc, steps.len() - resumed)?;
    Ok(ExchangePlan {
        steps,
        aborts,
        list,
        outcomes,
    })
}

// How many of the steps have no outcome.
fn resumed_among(steps: &[Step]) -> usize
    ensures value { result ≡ resumed_count steps.now }
    ensures rest { result + ended_count steps.now ≡ length steps.now }
{
    let mut resumed = 0;
    for step in steps {
        if !step.plan.is_outcome() {
            resumed += 1;
        }
    }
    resumed
}

impl ExchangePlan {
    /// Copies of the outcomes that `exchange` returns, in their order, for a caller that keeps a record of
    /// each. Allocates the list, and outcomes that carry an error or annotations; nothing if no delivery has
    /// ended.
    pub fn copies_of_outcomes(
        &self,
        alloc: Global,
        own: &UnsettledMap<UnsettledMessage>,
    ) -> Result<Vec<DeliveryOutcome>, AllocError>
        requires { (remote : States) × IsPlanOf self.now own.now remote }
        ensures copies { IfOk result (λ copies. (remote : States) → IsPlanOf self.now own.now remote
            → copies.items ≡ map (λ ended. ended.1) (outcomes_returned own.now remote)) }
        ensures memory { OnErr result ((remote : States) → IsPlanOf self.now own.now remote
            → outcomes_returned own.now remote ≢ []) }
    {
        let copies = copies_by(alloc, own.pairs(), self.steps.as_slice())?;
        Ok(copies)
    }
}

// Copies of the outcomes of deliveries, by their steps.
fn copies_by(
    alloc: Global,
    pairs: Slice<'_, DeliveryTag, UnsettledMessage>,
    steps: &[Step],
) -> Result<Vec<DeliveryOutcome>, AllocError>
    requires { length steps.now ≡ length pairs }
    ensures copies { IfOk result (λ copies. copies.items
        ≡ map (λ ended. ended.1) (ended_by_steps pairs.entry steps.now)) }
    ensures memory { OnErr result (ended_by_steps pairs.entry steps.now ≢ []) }
{
    let mut copies = Vec::new(alloc);
    let mut steps = steps.iter();
    for (_, entry) in pairs {
        let Some(step) = steps.next() else {
            unreachable!()
        };
        if let Some(copy) = step.plan.copy_of_outcome(entry)? {
            copies.push(copy)?;
        }
    }
    Ok(copies)
}

/// The second half of an exchange: moves the entries out of the sender's map as planned. Returns the
/// deliveries to be resumed, sent again or aborted, or whose outcome is to be stated again, in the order of
/// the sender's map and then of the receiver's, and the outcomes of the deliveries that have ended. Does not
/// allocate.
pub fn exchange(
    own: UnsettledMap<UnsettledMessage>,
    plan: ExchangePlan,
) -> (ResumingDeliveries, Outcomes)
    requires { (remote : States) × IsPlanOf plan own remote }
    ensures list { (remote : States) → IsPlanOf plan own remote
        → result.0 ≡ deliveries_to_resume own remote }
    ensures outcomes { (remote : States) → IsPlanOf plan own remote
        → result.1.items ≡ outcomes_returned own remote }
{
    let ExchangePlan {
        steps,
        aborts,
        mut list,
        mut outcomes,
    } = plan;
    resolve_each(own, steps, &mut list, &mut outcomes);
    append(aborts, &mut list);
    (ResumingDeliveries::from(list), outcomes)
}

// Appends deliveries to a list that has room for them.
fn append(
    deliveries: Vec<(DeliveryTag, ResumingDelivery)>,
    list: &mut Vec<(DeliveryTag, ResumingDelivery)>,
)
    requires { vec_len list.old + vec_len deliveries ≤ vec_capacity list.old }
    ensures { list.new.items ≡ list.old.items ++ deliveries.items }
{
    for delivery in deliveries {
        drop(list.push(delivery));
    }
}

// Resolves deliveries by their steps, into lists that have room for them.
fn resolve_each(
    own: UnsettledMap<UnsettledMessage>,
    steps: Vec<Step>,
    list: &mut Vec<(DeliveryTag, ResumingDelivery)>,
    outcomes: &mut Outcomes,
)
    requires able { Pairwise IsResolvable own steps.items }
    requires list_room { vec_len list.old + resumed_count steps.items ≤ vec_capacity list.old }
    requires outcome_room { vec_len outcomes.old + ended_count steps.items ≤ vec_capacity outcomes.old }
    ensures list { list.new.items ≡ list.old.items ++ resumed_by own steps.items }
    ensures outcomes { outcomes.new.items ≡ outcomes.old.items ++ ended_by_steps own steps.items }
    ensures capacity { vec_capacity list.old ≤ vec_capacity list.new }
{
    let mut steps = steps.into_iter();
    for (tag, entry) in own.into_map() {
        let Some(step) = steps.next() else {
            unreachable!()
        };
        resolve_one(tag, entry, step, list, outcomes);
    }
    drop(steps);
}

// Resolves one delivery by its step, into lists that have room for it.
fn resolve_one(
    tag: DeliveryTag,
    entry: UnsettledMessage,
    step: Step,
    list: &mut Vec<(DeliveryTag, ResumingDelivery)>,
    outcomes: &mut Outcomes,
)
    requires able { IsResolvable (tag, entry) step }
    requires list_room { vec_len list.old + resumed_count (step ∷ []) ≤ vec_capacity list.old }
    requires outcome_room { vec_len outcomes.old + ended_count (step ∷ []) ≤ vec_capacity outcomes.old }
    ensures list { list.new.items ≡ list.old.items ++ resumed_by ((tag, entry) ∷ []) (step ∷ []) }
    ensures outcomes { outcomes.new.items ≡ outcomes.old.items ++ ended_by_steps ((tag, entry) ∷ []) (step ∷ []) }
    ensures list_capacity { vec_capacity list.old ≤ vec_capacity list.new }
    ensures outcome_capacity { vec_capacity outcomes.old ≤ vec_capacity outcomes.new }
{
    let Step { plan, tag: carried } = step;
    match plan.resolve(carried, entry) {
        Resolution::Resuming(next) => drop(list.push((tag, next))),
        Resolution::Outcome(outcome) => drop(outcomes.push((tag, outcome))),
    }
}
