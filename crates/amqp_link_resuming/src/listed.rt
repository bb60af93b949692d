//! What is done of the first delivery that an exchange lists, call by call until the list is empty (2.6.13).
ghost use Rattle.std.specs.Prelude.{◌≡◌, IfErr, IfOk, OnErr, false, true};
ghost use Rattle.amqp_link_resuming.specs.ResumingSteps.{DoesNext, StopsListed};

use crate::steps::{Left, Step, put_back_one, resume_one};
use amqp_link_core::resumption::ResumingDelivery;
use amqp_link_endpoint::endpoint::target::LinkTarget;
use amqp_link_ledger::ledger::OutcomeLedger;
use amqp_link_types::types::{DeliveryTag, LinkStateError};
use std::collections::VecDeque;

/// Takes the first delivery of a list, and does with it what the exchange asks for, as `resume_one` does (2.6.13).
/// `Step::Nothing` comes exactly from an empty list, with nothing changed: call it until then.
///
/// Refused as `resume_one` is, with ledger and list unchanged: the delivery stays the first of the list. Its place
/// there is kept, so that the list does not allocate.
///
/// Its cost grows with the number of frames, and not with the length of the list.
pub fn resume_next<T: LinkTarget>(
    ledger: &mut OutcomeLedger<T>,
    list: &mut VecDeque<(DeliveryTag, ResumingDelivery)>,
) -> Result<Step, LinkStateError>
    ensures done { IfOk result (λ step. DoesNext true list.old.items ledger.old step list.new.items ledger.new) }
    ensures refused { IfErr result (λ why. StopsListed true why list.old.items ledger.old.link) }
    ensures left { OnErr result ((ledger.new ≡ ledger.old) × (list.new.items ≡ list.old.items)) }
{
    let Some((tag, next)) = list.pop_front() else {
        return Ok(Step::Nothing);
    };
    match resume_one(ledger, tag, next) {
        Ok(step) => Ok(step),
        Err(Left { refused, tag, next }) => {
            list.push_front_reserved((tag, next));
            Err(refused)
        }
    }
}

/// Takes the first delivery of a list, and keeps it for the next attach, as `put_back_one` does (2.6.13): for a link that
/// is lost again before its list is empty, and for a delivery that is listed whole by an exchange that did not state
/// all. `Step::Nothing` comes exactly from an empty list, with nothing changed: call it until then.
///
/// Refused as `put_back_one` is, with ledger and list unchanged: the delivery stays the first of the list. Its place
/// there is kept, so that the list does not allocate.
///
/// Its cost is that of `put_back_one`, whatever the length of the list.
pub fn put_back_next<T: LinkTarget>(
    ledger: &mut OutcomeLedger<T>,
    list: &mut VecDeque<(DeliveryTag, ResumingDelivery)>,
) -> Result<Step, LinkStateError>
    ensures done { IfOk result (λ step. DoesNext false list.old.items ledger.old step list.new.items ledger.new) }
    ensures refused { IfErr result (λ why. StopsListed false why list.old.items ledger.old.link) }
    ensures left { OnErr result ((ledger.new ≡ ledger.old) × (list.new.items ≡ list.old.items)) }
{
    let Some((tag, next)) = list.pop_front() else {
        return Ok(Step::Nothing);
    };
    match put_back_one(ledger, tag, next) {
        Ok(step) => Ok(step),
        Err(Left { refused, tag, next }) => {
            list.push_front_reserved((tag, next));
            Err(refused)
        }
    }
}
