//! One call of a list.
ghost use Rattle.std.specs.Prelude.{◌≡◌};
ghost use Rattle.amqp_link_inbox.specs.Storing.{IsStated};
ghost use Rattle.amqp_link_inbox_runs.specs.InboxAnswers.{Answers};
ghost use Rattle.amqp_link_inbox_runs.specs.InboxSteps.{Step};
ghost use Rattle.amqp_link_inbox_runs.specs.declared.call.Call.TheVariants as call;

use crate::call::{AnswerOf, Call};
use amqp_link_endpoint::endpoint::target::LinkTarget;
use amqp_link_endpoint::endpoint::{LinkDetach, LinkExt};
use amqp_link_inbox::Inbox;
use amqp_link_types::types::{
    Attach, DeliveryState, DeliveryTag, Detach, Error, FromBody, LinkFlow, OutputHandle, Payload,
    Transfer,
};

// What always holds of an inbox; nothing is done.
pub(crate) fn is_stated<T: LinkTarget>(inbox: &Inbox<T>)
    ensures { IsStated inbox.now.deliveries inbox.now.link.unsettled }
{
    inbox.link();
}

// Makes one call.
pub(crate) fn answer_to<T: LinkTarget, B: FromBody>(inbox: &mut Inbox<T>, call: Call) -> AnswerOf<B>
    requires { (target copy : T) → T.is_clone target copy → copy ≡ target }
    ensures step { Step B.decoded inbox.old call result inbox.new }
    ensures answers { Answers T.sent_as T.admitted T.refused_by_receiver inbox.old call result inbox.new }
{
    match call {
        Call::SetOutputHandle(handle) => set_handle(inbox, handle),
        Call::SendAttach(anew) => send_attach(inbox, anew),
        Call::OnIncomingAttach(attach) => attach_taken(inbox, attach),
        Call::OnIncomingTransfer(transfer, payload) => arrive(inbox, transfer, payload),
        Call::Take(tag) => take(inbox, tag),
        Call::TakeSettled => take_settled(inbox),
        Call::Dispose {
            tag,
            settled,
            state,
            batchable,
        } => dispose(inbox, tag, settled, state, batchable),
        Call::DisposeAll {
            tags,
            settled,
            state,
            batchable,
        } => dispose_all(inbox, tags, settled, state, batchable),
        Call::KeepOutcome(tag, state) => keep_outcome(inbox, tag, state),
        Call::OnIncomingDisposition(settled, state, tag) => {
            disposition(inbox, settled, state, tag)
        }
        Call::SendFlow {
            credit,
            drain,
            echo,
            include_properties,
        } => send_flow(inbox, credit, drain, echo, include_properties),
        Call::OnIncomingFlow(flow) => flow_taken(inbox, flow),
        Call::SendDetach(closed, error) => send_detach(inbox, closed, error),
        Call::OnDetachReply(detach) => detach_reply(inbox, detach),
        Call::ApplyRemoteDetachOutcome(detach) => detach_taken(inbox, detach),
        Call::OnSessionLost => lose_session(inbox),
    }
}

fn set_handle<T: LinkTarget, B: FromBody>(inbox: &mut Inbox<T>, handle: OutputHandle) -> AnswerOf<B>
    ensures step { Step B.decoded inbox.old (call.SetOutputHandle handle) result inbox.new }
    ensures answers { Answers T.sent_as T.admitted T.refused_by_receiver inbox.old (call.SetOutputHandle handle) result inbox.new }
{
    *inbox.output_handle_mut() = Some(handle);
    AnswerOf::Done
}

fn send_attach<T: LinkTarget, B: FromBody>(inbox: &mut Inbox<T>, anew: bool) -> AnswerOf<B>
    requires { (target copy : T) → T.is_clone target copy → copy ≡ target }
    ensures step { Step B.decoded inbox.old (call.SendAttach anew) result inbox.new }
    ensures answers { Answers T.sent_as T.admitted T.refused_by_receiver inbox.old (call.SendAttach anew) result inbox.new }
{
    AnswerOf::AttachSent(inbox.send_attach(anew))
}

fn attach_taken<T: LinkTarget, B: FromBody>(inbox: &mut Inbox<T>, attach: Attach) -> AnswerOf<B>
    ensures step { Step B.decoded inbox.old (call.OnIncomingAttach attach) result inbox.new }
    ensures answers { Answers T.sent_as T.admitted T.refused_by_receiver inbox.old (call.OnIncomingAttach attach) result inbox.new }
{
    AnswerOf::Attached(inbox.on_incoming_attach(attach))
}

fn arrive<T: LinkTarget, B: FromBody>(
    inbox: &mut Inbox<T>,
    transfer: Transfer,
    payload: Payload,
) -> AnswerOf<B>
    ensures step { Step B.decoded inbox.old (call.OnIncomingTransfer transfer payload) result inbox.new }
    ensures answers { Answers T.sent_as T.admitted T.refused_by_receiver inbox.old (call.OnIncomingTransfer transfer payload) result inbox.new }
{
    AnswerOf::Arrived(inbox.on_incoming_transfer(transfer, payload))
}

fn take<T: LinkTarget, B: FromBody>(inbox: &mut Inbox<T>, tag: DeliveryTag) -> AnswerOf<B>
    ensures step { Step B.decoded inbox.old (call.Take tag) result inbox.new }
    ensures answers { Answers T.sent_as T.admitted T.refused_by_receiver inbox.old (call.Take tag) result inbox.new }
{
    let answer = AnswerOf::Taken(inbox.take(&tag));
    drop(tag);
    answer
}

fn take_settled<T: LinkTarget, B: FromBody>(inbox: &mut Inbox<T>) -> AnswerOf<B>
    ensures step { Step B.decoded inbox.old (call.TakeSettled) result inbox.new }
    ensures answers { Answers T.sent_as T.admitted T.refused_by_receiver inbox.old (call.TakeSettled) result inbox.new }
{
    AnswerOf::SettledTaken(inbox.take_settled())
}

fn dispose<T: LinkTarget, B: FromBody>(
    inbox: &mut Inbox<T>,
    tag: DeliveryTag,
    settled: Option<bool>,
    state: DeliveryState,
    batchable: bool,
) -> AnswerOf<B>
    ensures step { Step B.decoded inbox.old (call.Dispose tag settled state batchable) result inbox.new }
    ensures answers { Answers T.sent_as T.admitted T.refused_by_receiver inbox.old (call.Dispose tag settled state batchable) result inbox.new }
{
    let answer = AnswerOf::Disposed(inbox.dispose(&tag, settled, state, batchable));
    drop(tag);
    answer
}

fn dispose_all<T: LinkTarget, B: FromBody>(
    inbox: &mut Inbox<T>,
    tags: Vec<DeliveryTag>,
    settled: Option<bool>,
    state: DeliveryState,
    batchable: bool,
) -> AnswerOf<B>
    ensures step { Step B.decoded inbox.old (call.DisposeAll tags settled state batchable) result inbox.new }
    ensures answers { Answers T.sent_as T.admitted T.refused_by_receiver inbox.old (call.DisposeAll tags settled state batchable) result inbox.new }
{
    let answer = AnswerOf::AllDisposed(inbox.dispose_all(
        tags.as_slice(),
        settled,
        state,
        batchable,
    ));
    drop(tags);
    answer
}

fn keep_outcome<T: LinkTarget, B: FromBody>(
    inbox: &mut Inbox<T>,
    tag: DeliveryTag,
    state: DeliveryState,
) -> AnswerOf<B>
    ensures step { Step B.decoded inbox.old (call.KeepOutcome tag state) result inbox.new }
    ensures answers { Answers T.sent_as T.admitted T.refused_by_receiver inbox.old (call.KeepOutcome tag state) result inbox.new }
{
    let answer = AnswerOf::OutcomeKept(inbox.keep_outcome(&tag, state));
    drop(tag);
    answer
}

fn disposition<T: LinkTarget, B: FromBody>(
    inbox: &mut Inbox<T>,
    settled: bool,
    state: Option<DeliveryState>,
    tag: DeliveryTag,
) -> AnswerOf<B>
    ensures step { Step B.decoded inbox.old (call.OnIncomingDisposition settled state tag) result inbox.new }
    ensures answers { Answers T.sent_as T.admitted T.refused_by_receiver inbox.old (call.OnIncomingDisposition settled state tag) result inbox.new }
{
    let answer = AnswerOf::DispositionTaken(inbox.on_incoming_disposition(settled, state, &tag));
    drop(tag);
    answer
}

fn send_flow<T: LinkTarget, B: FromBody>(
    inbox: &mut Inbox<T>,
    credit: Option<u32>,
    drain: Option<bool>,
    echo: bool,
    include_properties: bool,
) -> AnswerOf<B>
    ensures step { Step B.decoded inbox.old (call.SendFlow credit drain echo include_properties) result inbox.new }
    ensures answers { Answers T.sent_as T.admitted T.refused_by_receiver inbox.old (call.SendFlow credit drain echo include_properties) result inbox.new }
{
    AnswerOf::FlowSent(inbox.send_flow(credit, drain, echo, include_properties))
}

fn flow_taken<T: LinkTarget, B: FromBody>(inbox: &mut Inbox<T>, flow: LinkFlow) -> AnswerOf<B>
    ensures step { Step B.decoded inbox.old (call.OnIncomingFlow flow) result inbox.new }
    ensures answers { Answers T.sent_as T.admitted T.refused_by_receiver inbox.old (call.OnIncomingFlow flow) result inbox.new }
{
    AnswerOf::FlowTaken(inbox.on_incoming_flow(flow))
}

fn send_detach<T: LinkTarget, B: FromBody>(
    inbox: &mut Inbox<T>,
    closed: bool,
    error: Option<Error>,
) -> AnswerOf<B>
    ensures step { Step B.decoded inbox.old (call.SendDetach closed error) result inbox.new }
    ensures answers { Answers T.sent_as T.admitted T.refused_by_receiver inbox.old (call.SendDetach closed error) result inbox.new }
{
    AnswerOf::DetachSent(inbox.send_detach(closed, error))
}

fn detach_reply<T: LinkTarget, B: FromBody>(inbox: &mut Inbox<T>, detach: Detach) -> AnswerOf<B>
    ensures step { Step B.decoded inbox.old (call.OnDetachReply detach) result inbox.new }
    ensures answers { Answers T.sent_as T.admitted T.refused_by_receiver inbox.old (call.OnDetachReply detach) result inbox.new }
{
    AnswerOf::DetachReplied(inbox.on_detach_reply(detach))
}

fn detach_taken<T: LinkTarget, B: FromBody>(inbox: &mut Inbox<T>, detach: Detach) -> AnswerOf<B>
    ensures step { Step B.decoded inbox.old (call.ApplyRemoteDetachOutcome detach) result inbox.new }
    ensures answers { Answers T.sent_as T.admitted T.refused_by_receiver inbox.old (call.ApplyRemoteDetachOutcome detach) result inbox.new }
{
    AnswerOf::DetachTaken(inbox.apply_remote_detach_outcome(detach))
}

fn lose_session<T: LinkTarget, B: FromBody>(inbox: &mut Inbox<T>) -> AnswerOf<B>
    ensures step { Step B.decoded inbox.old (call.OnSessionLost) result inbox.new }
    ensures answers { Answers T.sent_as T.admitted T.refused_by_receiver inbox.old (call.OnSessionLost) result inbox.new }
{
    inbox.on_session_lost();
    AnswerOf::Done
}
