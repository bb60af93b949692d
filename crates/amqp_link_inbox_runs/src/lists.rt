//! Lists of calls on an inbox (2.7.5).
ghost use Rattle.std.specs.Prelude.{◌≡◌, IfErr, IfOk, OnErr};
ghost use Rattle.amqp_link_inbox.specs.Storing.{IsStated};
ghost use Rattle.amqp_link_inbox_runs.specs.InboxRuns.{EachAnswers, HoldsWhatCame, KeepsTheQueue, RunsCalls, StatesTheLast, TakesOnce, TakesWhatCame};

mod making;

use crate::call::{AnswerOf, Call};
use crate::lists::making::{answer_to, is_stated};
use amqp_link_endpoint::endpoint::target::LinkTarget;
use amqp_link_inbox::Inbox;
use amqp_link_types::types::FromBody;
use std::alloc::Global;

/// Makes these calls in order, and returns the answer of each, as the call's own contract states it. A call that is refused,
/// also one that is out of memory, leaves what that contract says, and the next one is made.
///
/// If there is no room for the answers, nothing is done, and the calls are returned.
///
/// After any list of calls, whatever the peer has sent, over all attachments: of each delivery whose bytes are held, they are
/// the bytes of its transfers, in order, each once (`held`); the link states each delivery that is kept and not settled, and
/// no other (`stated`), up to where it has arrived, or in the state that was stated since (`states`); and a delivery is
/// handed out at most once (`once`), with the bytes that had come (`taken`); those that their sender has settled leave the
/// queue in the order in which they joined it, with all their bytes (`queue`).
///
/// Its cost is that of the single calls.
pub fn run<T: LinkTarget, B: FromBody>(
    alloc: Global,
    inbox: &mut Inbox<T>,
    calls: Vec<Call>,
) -> Result<Vec<AnswerOf<B>>, Vec<Call>>
    requires { (target copy : T) → T.is_clone target copy → copy ≡ target }
    ensures run { IfOk result (λ answers. (run : RunsCalls B.decoded inbox.old calls.items answers.items inbox.new)
        × EachAnswers T.sent_as T.admitted T.refused_by_receiver run.moments) }
    ensures held { IfOk result (λ answers. (run : RunsCalls B.decoded inbox.old calls.items answers.items inbox.new)
        → HoldsWhatCame inbox.old run.moments inbox.new) }
    ensures stated { IsStated inbox.new.deliveries inbox.new.link.unsettled }
    ensures states { IfOk result (λ answers. (run : RunsCalls B.decoded inbox.old calls.items answers.items inbox.new)
        → StatesTheLast inbox.old run.moments inbox.new) }
    ensures once { IfOk result (λ answers. (run : RunsCalls B.decoded inbox.old calls.items answers.items inbox.new)
        → (tag : _) → TakesOnce tag run.moments) }
    ensures taken { IfOk result (λ answers. (run : RunsCalls B.decoded inbox.old calls.items answers.items inbox.new)
        → TakesWhatCame B.decoded inbox.old run.moments) }
    ensures queue { IfOk result (λ answers. (run : RunsCalls B.decoded inbox.old calls.items answers.items inbox.new)
        → KeepsTheQueue inbox.old run.moments inbox.new) }
    ensures back { IfErr result (λ back. back ≡ calls) }
    ensures left { OnErr result (inbox.new ≡ inbox.old) }
{
    is_stated(inbox);
    let Ok(mut answers) = Vec::with_capacity(alloc, calls.len()) else {
        return Err(calls);
    };
    for call in calls {
        answers.push_reserved(answer_to(inbox, call));
        is_stated(inbox);
    }
    Ok(answers)
}
