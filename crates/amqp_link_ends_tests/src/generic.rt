//! A caller that works with either endpoint, proved from the contracts of the traits alone.
ghost use Rattle.std.specs.Prelude.{◌≡◌, ◌⊎◌, [], Bool, None, Some, MatchOption, IsSomeAnd, IfOk, OnOk, OnErr};
ghost use Rattle.amqp_link_state.specs.declared.state.LinkState.TheVariants.{Attached, Detached};
ghost use Rattle.amqp_link_types.specs.declared.types.attach.Attach.{Attach as TheAttach};
ghost use Rattle.amqp_link_endpoint.specs.AttachFields.{next_of, remote_entries};
ghost use Rattle.amqp_link_endpoint.specs.Detaching.{detach_frame};
ghost use Rattle.amqp_link_endpoint.specs.LinkStates.{Call, next_state, state_without_session};
ghost use Rattle.amqp_link_ends_tests.specs.Stated.{IsStatedBy, Keeps, GivesUp, Takes};

use crate::assertions::assert_equal;
use crate::samples::{coming, parts};
use amqp_link_endpoint::endpoint::{Link, LinkAttach, LinkDetach, LinkExt};
use amqp_link_receiver::receiver_link::ReceiverLink;
use amqp_link_sender::sender_link::SenderLink;
use amqp_link_state::state::LinkState;
use amqp_link_tests_support::links::went;
use amqp_link_types::delivery::Outcomes;
use amqp_link_types::frame::LinkFrame;
use amqp_link_types::types::{
    Attach, Detach, Fields, Handle, OutputHandle, Role, SenderSettleMode, Target,
};
use std::mem;
use std::process::Abort;

// Sends the endpoint's attach, which states what the endpoint shows; the state moves, and the handle, the
// name, the frame limit and the unsettled deliveries stay.
fn send<L: LinkAttach>(link: &mut L) -> Result<LinkFrame, L::AttachError>
    requires { L.copies }
    ensures stated { IfOk result (λ frame. (attach : TheAttach) × (frame ≡ LinkFrame.Attach attach)
        × IsStatedBy (L.shown link.old) (L.shown link.old).entries attach
        × (next_state Call.SendAttach attach.incomplete_unsettled (L.shown link.old).local_state
        ≡ Some (L.shown link.new).local_state)) }
    ensures handle { OnOk result ((L.shown link.new).output_handle ≡ (L.shown link.old).output_handle) }
    ensures keeps { OnOk result (Keeps (L.shown link.old) (L.shown link.new)) }
    ensures left { OnErr result (link.new ≡ link.old) }
{
    let (frame, outcomes) = link.send_attach(false)?;
    drop(outcomes);
    Ok(frame)
}

// Reattaches the endpoint: the attach states none of the deliveries, and the endpoint keeps none. The
// outcomes are those that the endpoint showed; the state moves, and the handle, the name and the frame limit
// stay.
fn send_anew<L: LinkAttach>(link: &mut L) -> Result<(LinkFrame, Outcomes), L::AttachError>
    requires { L.copies }
    ensures stated { IfOk result (λ sent. (attach : TheAttach) × (sent.0 ≡ LinkFrame.Attach attach)
        × IsStatedBy (L.shown link.old) [] attach
        × (next_state Call.SendAttach attach.incomplete_unsettled (L.shown link.old).local_state
        ≡ Some (L.shown link.new).local_state)) }
    ensures ended { IfOk result (λ sent. sent.1.items ≡ (L.shown link.old).ended) }
    ensures handle { OnOk result ((L.shown link.new).output_handle ≡ (L.shown link.old).output_handle) }
    ensures given_up { OnOk result (GivesUp (L.shown link.old) (L.shown link.new)) }
    ensures left { OnErr result (link.new ≡ link.old) }
{
    link.send_attach(true)
}

// Takes the peer's attach. The handle, the name and the frame limit stay; the state moves if the attach is
// taken, and stays or moves if it is refused. The deliveries of a sender are resolved if it is taken; all
// others stay.
fn take<L: LinkAttach>(link: &mut L, attach: Attach) -> Result<L::AttachExchange, L::AttachError>
    ensures state { OnOk result (next_of (L.shown link.old).local_state attach
        ≡ Some (L.shown link.new).local_state) }
    ensures refused { OnErr result ((link.new ≡ link.old)
        ⊎ (next_of (L.shown link.old).local_state attach ≡ Some (L.shown link.new).local_state)) }
    ensures exchanged { IfOk result (L.exchanged (L.shown link.old).unsettled (remote_entries attach)
        (L.shown link.new).local_state) }
    ensures handle { (L.shown link.new).output_handle ≡ (L.shown link.old).output_handle }
    ensures taken { OnOk result (Takes (L.shown link.old) (L.shown link.new)) }
    ensures keeps { OnErr result (Keeps (L.shown link.old) (L.shown link.new)) }
{
    match link.on_incoming_attach(attach) {
        Ok(exchange) => Ok(exchange),
        Err(refused) => Err(refused),
    }
}

// Sends a detach, which closes or does not: the state moves, also without output handle, and the handle
// is released.
fn detach<L: LinkDetach>(link: &mut L, closed: bool) -> Result<LinkFrame, L::DetachError>
    ensures state { MatchOption (next_state Call.SendDetach closed (L.shown link.old).local_state)
        (link.new ≡ link.old)
        (λ next. ((L.shown link.new).local_state ≡ next) × ((L.shown link.new).output_handle ≡ None)) }
    ensures sent { IfOk result (λ frame. IsSomeAnd (L.shown link.old).output_handle (λ handle.
        frame ≡ detach_frame handle closed None)) }
    ensures keeps { Keeps (L.shown link.old) (L.shown link.new) }
    ensures flow { (L.shown link.new).flow_state ≡ (L.shown link.old).flow_state }
{
    link.send_detach(closed, None)
}

// Detaches a link and gives it an output handle again.
fn cut<L: LinkExt>(link: &mut L, handle: OutputHandle) -> Result<(), L::DetachError>
    ensures state { (L.shown link.old).local_state ≡ Attached
        → OnOk result ((L.shown link.new).local_state ≡ Detached) }
    ensures again { OnOk result ((L.shown link.new).output_handle ≡ Some handle) }
    ensures keeps { Keeps (L.shown link.old) (L.shown link.new) }
    ensures flow { (L.shown link.new).flow_state ≡ (L.shown link.old).flow_state }
{
    drop(detach(link, false)?);
    link.on_detach_reply(Detach {
        handle: Handle(0),
        closed: false,
        error: None,
    })?;
    *link.output_handle_mut() = Some(handle);
    Ok(())
}

// The session of a link is lost, and another one gives it an output handle.
fn lose_session<L: LinkExt>(link: &mut L, handle: OutputHandle)
    ensures state { (L.shown link.new).local_state ≡ state_without_session (L.shown link.old).local_state }
    ensures again { (L.shown link.new).output_handle ≡ Some handle }
    ensures keeps { Keeps (L.shown link.old) (L.shown link.new) }
    ensures flow { (L.shown link.new).flow_state ≡ (L.shown link.old).flow_state }
{
    link.on_session_lost();
    *link.output_handle_mut() = Some(handle);
}

// Gives a link other properties.
fn set_properties<L: LinkExt>(link: &mut L, properties: Option<Fields>)
    ensures given { (L.shown link.new).flow_state.properties ≡ properties }
    ensures state { (L.shown link.new).local_state ≡ (L.shown link.old).local_state }
    ensures handle { (L.shown link.new).output_handle ≡ (L.shown link.old).output_handle }
    ensures keeps { Keeps (L.shown link.old) (L.shown link.new) }
{
    drop(mem::replace(link.properties_mut(), properties));
}

// Attaches a link to an endpoint of this role, and cuts it; returns the link's state.
fn attached_and_cut<L: Link>(
    rt: &(impl Abort + AllocGlobal),
    link: &mut L,
    role: Role,
) -> (bool, LinkState)
    requires { L.copies }
{
    set_properties(link, None);
    let sent = went(send(link));
    let came = went(take(link, coming(rt, role, false)));
    let detached = went(cut(link, OutputHandle(9)));
    (sent && came && detached, *link.local_state())
}

// The same, then reattaches the link, and loses its session; returns the link's states after the three.
fn attached_anew<L: Link>(
    rt: &(impl Abort + AllocGlobal),
    link: &mut L,
    role: Role,
) -> [(bool, LinkState); 3]
    requires { L.copies }
{
    let cut = attached_and_cut(rt, link, role);
    let anew = went(send_anew(link));
    let anew = (anew, *link.local_state());
    lose_session(link, OutputHandle(9));
    [cut, anew, (true, *link.local_state())]
}

const CUT_AND_ATTACHED_ANEW: [(bool, LinkState); 3] = [
    (true, LinkState::Detached),
    (true, LinkState::AttachSent),
    (true, LinkState::Detached),
];

fn sender(rt: &(impl Abort + AllocGlobal)) -> SenderLink<Target> {
    let link = SenderLink::new(rt.alloc(), parts(rt, SenderSettleMode::Mixed, 512));
    link.with_output_handle(OutputHandle(0))
}

fn receiver(rt: &(impl Abort + AllocGlobal)) -> ReceiverLink<Target> {
    let link = ReceiverLink::new(rt.alloc(), parts(rt, SenderSettleMode::Mixed, 512));
    link.with_output_handle(OutputHandle(0))
}

fn states_of_sender(rt: &(impl Abort + AllocGlobal)) -> [(bool, LinkState); 3] {
    let mut link = sender(rt);
    let states = attached_anew(rt, &mut link, Role::Receiver);
    drop(link);
    states
}

fn states_of_receiver(rt: &(impl Abort + AllocGlobal)) -> [(bool, LinkState); 3] {
    let mut link = receiver(rt);
    let states = attached_anew(rt, &mut link, Role::Sender);
    drop(link);
    states
}

#[test]
fn either_end_is_cut_and_attached_anew(rt: HostRuntime) {
    assert_equal(&rt, &states_of_sender(&rt), &CUT_AND_ATTACHED_ANEW);
    assert_equal(&rt, &states_of_receiver(&rt), &CUT_AND_ATTACHED_ANEW);
}
