//! A receiver that grants credit while transfers are under way, and never loses count (2.6.7).
//!
//! It keeps a window open: once at most half of its credits are left, it states the whole window again. That flow and
//! the transfers under way cross; whatever the sender has sent by then is covered by what the receiver has granted.
ghost use Rattle.std.specs.Prelude.{◌≡◌, ◌≢◌, ◌<◌, ◌≤◌, ◌/◌, ◌∷◌, true, false, None, Ok, Err, IfOk, IsErrOf, OnOk, OnErr, MatchOption};
ghost use Rattle.amqp_link.specs.CreditCalls.{GrantsCredit, granting_tests};
ghost use Rattle.amqp_link.specs.CreditWorlds.{IsCreditWorld, under_way};
ghost use Rattle.amqp_link_uses.specs.Windows.{taking_tests, window_tests};
ghost use Rattle.amqp_link.specs.Refusals.{AnswersOrOutOfMemory, AnswersThenOutOfMemory, refusal};

use amqp_link::credit_run::{Arrival, CreditRun, CreditRunError};
use amqp_link::{Delivery, LinkExt, Whole};

/// States the whole window again, if at most half of its credits are left. Returns whether it did.
///
/// Refused as `CreditRun::grant` is, with nothing changed. A receiver whose credit is within the window is never refused
/// with `LimitLowered`.
pub fn keep_open(run: &mut CreditRun, window: u32) -> Result<bool, CreditRunError>
    ensures enough { window / 2 < run.old.receiver.flow_state.link_credit
        → (result ≡ Ok false) × (run.new ≡ run.old) }
    ensures stated { run.old.receiver.flow_state.link_credit ≤ window / 2
        → IfOk result (λ did. (did ≡ true) × GrantsCredit run.old window false false run.new) }
    ensures refused { run.old.receiver.flow_state.link_credit ≤ window / 2
        → AnswersThenOutOfMemory CreditRunError.OutOfMemory result (granting_tests run.old window) }
    ensures left { OnErr result (run.new ≡ run.old) }
    ensures open { OnOk result (window / 2 ≤ run.new.receiver.flow_state.link_credit) }
    ensures never_lowered { run.old.receiver.flow_state.link_credit ≤ window
        → result ≢ Err CreditRunError.LimitLowered }
    ensures under_way { under_way run.new ≡ under_way run.old }
    ensures kept { IsCreditWorld run.new }
{
    if run.receiver().flow_state().link_credit() > window / 2 {
        return Ok(false);
    }
    run.grant(window, false, false)?;
    Ok(true)
}

/// Keeps the window open, and takes the next frame under way. Returns the delivery that it completes, if it does: the
/// first of those under way.
///
/// Refused as `keep_open` is, then with `QueueEmpty` if no frame is under way; out of memory may come before that, and not
/// before the refusals of `keep_open`. If the frame is refused, the window may have been stated again.
pub fn take_next(
    run: &mut CreditRun,
    id: u32,
    window: u32,
) -> Result<Option<Delivery<Whole>>, CreditRunError>
    ensures next { IfOk result (λ came. MatchOption came
        (under_way run.new ≡ under_way run.old)
        (λ delivery. under_way run.old
        ≡ (delivery.info.delivery_tag, delivery.message.body.0) ∷ under_way run.new)) }
    ensures refused { AnswersOrOutOfMemory CreditRunError.OutOfMemory result (taking_tests run.old window) }
    ensures memory { IsErrOf result CreditRunError.OutOfMemory → refusal (window_tests run.old window) ≡ None }
    ensures left { OnErr result (under_way run.new ≡ under_way run.old) }
    ensures kept { IsCreditWorld run.new }
{
    keep_open(run, window)?;
    match run.forward_arrives(id)? {
        Arrival::Completed(delivery) => Ok(Some(delivery)),
        Arrival::Piece | Arrival::Flow => Ok(None),
    }
}
