//! The outcomes of a sender's deliveries when a detach closes the link, and the reply to a detach (2.6.4
//! to 2.6.6 and 2.7.7).
ghost use Rattle.std.specs.Prelude.{◌≡◌, ◌≢◌, ◌+◌, ◌≤◌, ◌++◌, [], true, is_some, length, vec_len, vec_capacity, All, IfOk, OnOk, OnErr};
ghost use Rattle.amqp_link_dispositions.specs.Ending.{reply_of};
ghost use Rattle.amqp_link_dispositions.specs.Ending;

use amqp_link_types::delivery::{Outcomes, UnsettledMessage};
use amqp_link_types::types::unsettled_map::UnsettledMap;
use amqp_link_types::types::{Detach, Error, LinkStateError, OutputHandle};
use amqp_link_values::copy::copy_of;
use std::alloc::{AllocError, Global};

/// The reply to a detach, at this endpoint's output handle: the same `closed` and `error`. Allocates only an
/// error.
pub fn reply_to(detach: &Detach, handle: OutputHandle) -> Result<Detach, AllocError>
    ensures reply { IfOk result (λ reply. reply ≡ reply_of handle detach.now) }
    ensures memory { OnErr result (is_some detach.now.error ≡ true) }
{
    Ok(Detach {
        handle: handle.into(),
        closed: detach.closed,
        error: copy_of(&detach.error)?,
    })
}

// The outcome of a delivery whose link is closed by a detach with this error, if any.
fn closed_for(error: &Option<Error>) -> Result<LinkStateError, AllocError>
    ensures { IfOk result (λ reason. reason ≡ Ending.closed_for error.now) }
{
    match error {
        None => Ok(LinkStateError::RemoteClosed),
        Some(error) => Ok(LinkStateError::RemoteClosedWithError(error.clone()?)),
    }
}

// As many copies of that as there are deliveries.
fn reasons_for(
    alloc: Global,
    error: &Option<Error>,
    count: usize,
) -> Result<Vec<LinkStateError>, AllocError>
    ensures count { IfOk result (λ reasons. vec_len reasons ≡ count) }
    ensures each { IfOk result (λ reasons. All (λ reason. reason ≡ Ending.closed_for error.now) reasons.items) }
{
    let mut reasons = Vec::with_capacity(alloc, count)?;
    for _ in 0..count {
        reasons.push(closed_for(error)?)?;
    }
    Ok(reasons)
}

// Resolves each delivery with its copy, in a list that has room for all.
fn end_each(
    unsettled: UnsettledMap<UnsettledMessage>,
    reasons: Vec<LinkStateError>,
    outcomes: &mut Outcomes,
    error: &Option<Error>,
)
    requires count { vec_len reasons ≡ length unsettled }
    requires each { All (λ reason. reason ≡ Ending.closed_for error.now) reasons.items }
    requires room { vec_len outcomes.old + length unsettled ≤ vec_capacity outcomes.old }
    ensures { outcomes.new.items ≡ outcomes.old.items ++ Ending.all_closed error.now unsettled }
{
    let _why = error;
    let mut reasons = reasons;
    for (tag, message) in unsettled.into_map() {
        drop(message);
        let Some(reason) = reasons.pop() else {
            unreachable!()
        };
        drop(outcomes.push((tag, Err(reason))));
    }
}

/// Resolves each delivery, in order, since its link is closed, and removes all of them from the map.
///
/// Refused only if it is out of memory, with nothing changed: all allocations are made first. If there are no
/// deliveries it does not allocate.
pub fn all_closed(
    alloc: Global,
    unsettled: &mut UnsettledMap<UnsettledMessage>,
    error: &Option<Error>,
) -> Result<Outcomes, AllocError>
    ensures ended { IfOk result (λ outcomes.
        outcomes.items ≡ Ending.all_closed error.now unsettled.old) }
    ensures emptied { OnOk result (unsettled.new ≡ []) }
    ensures memory { OnErr result (unsettled.old ≢ []) }
    ensures left { OnErr result (unsettled.new ≡ unsettled.old) }
{
    if unsettled.is_empty() {
        return Ok(Vec::new(alloc));
    }
    let reasons = reasons_for(alloc, error, unsettled.len())?;
    let mut outcomes = Vec::with_capacity(alloc, unsettled.len())?;
    // From here on nothing can fail.
    end_each(unsettled.take_all(), reasons, &mut outcomes, error);
    Ok(outcomes)
}
