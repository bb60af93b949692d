//! The fates of a ledger as plain values.
use crate::assertions::{assert_equal, assert_equal_at};
use amqp_link_ledger::fate::Fate;
use amqp_link_ledger::ledger::OutcomeLedger;
use amqp_link_types::delivery::DeliveryOutcome;
use amqp_link_types::types::{DeliveryState, DeliveryTag, LinkStateError, Target};
use std::process::Abort;

// What became of a registration.
#[derive(Clone, Copy, Debug, PartialEq, Eq)]
pub(crate) enum Shown {
    Nothing,
    Pending,
    Withdrawn,
    HandedOut,
    Accepted,
    Released,
    NoState,
    Closed,
    Illegal,
    Forgotten,
    Other,
}

pub(crate) fn fate_shown(fate: Option<&Fate>) -> Shown {
    let Some(fate) = fate else {
        return Shown::Nothing;
    };
    match fate {
        Fate::Pending => Shown::Pending,
        Fate::Withdrawn => Shown::Withdrawn,
        Fate::HandedOut => Shown::HandedOut,
        Fate::Resolved(outcome) => outcome_shown(outcome),
        Fate::Released => Shown::Forgotten,
    }
}

pub(crate) fn outcome_shown(outcome: &DeliveryOutcome) -> Shown {
    match outcome {
        Ok(state) => state_shown(state.as_ref()),
        Err(error) => error_shown(error),
    }
}

fn state_shown(state: Option<&DeliveryState>) -> Shown {
    let Some(state) = state else {
        return Shown::NoState;
    };
    match state {
        DeliveryState::Accepted => Shown::Accepted,
        DeliveryState::Released => Shown::Released,
        _ => Shown::Other,
    }
}

fn error_shown(error: &LinkStateError) -> Shown {
    match error {
        LinkStateError::RemoteClosed => Shown::Closed,
        LinkStateError::IllegalState => Shown::Illegal,
        _ => Shown::Other,
    }
}

// These are the outcomes, in order, each of the delivery whose tag is made of this count.
pub(crate) fn assert_outcomes(
    rt: &impl Abort,
    outcomes: &[(DeliveryTag, DeliveryOutcome)],
    wanted: &[(u8, Shown)],
) {
    assert_equal(rt, &outcomes.len(), &wanted.len());
    for ((tag, outcome), (count, shown)) in outcomes.iter().zip(wanted) {
        let bytes = [0, 0, 0, *count];
        assert_equal_at(rt, &tag.as_bytes(), &bytes.as_slice(), count);
        assert_equal_at(rt, &outcome_shown(outcome), shown, count);
    }
}

// The registrations have these fates, and there is no other.
pub(crate) fn assert_fates(rt: &impl Abort, ledger: &OutcomeLedger<Target>, wanted: &[Shown]) {
    for (number, wanted) in wanted.iter().enumerate() {
        assert_equal_at(rt, &fate_shown(ledger.fate(number)), wanted, &number);
    }
    let past = fate_shown(ledger.fate(wanted.len()));
    assert_equal_at(rt, &past, &Shown::Nothing, &"past the last number");
    let greatest = fate_shown(ledger.fate(usize::MAX));
    assert_equal_at(rt, &greatest, &Shown::Nothing, &"the greatest number");
}
