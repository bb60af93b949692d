//! The endpoints of a pair are attached (2.6.3).
//!
//! The sender's attach is sent first, then the receiver's. Each of four steps allocates, so an attach may
//! stop between them. The attach that was sent and has not arrived is kept, and the endpoint that takes it
//! gets a copy.
ghost use Rattle.std.specs.Prelude.{◌≡◌, ℕ, false, None, Some, IfOk, OnOk, OnErr};
ghost use Rattle.amqp_link_types.specs.declared.types.definitions.OutputHandle.{OutputHandle as TheHandle};
ghost use Rattle.amqp_link_state.specs.declared.state.LinkState.{LinkState as TheState};
ghost use Rattle.amqp_link_endpoint.specs.AttachFields.{remote_entries};
ghost use Rattle.amqp_link_endpoint.specs.Attaching.{with_entries};
ghost use Rattle.amqp_link_endpoint.specs.LinkStates.{Call, next_state};
ghost use Rattle.amqp_link_endpoint.specs.Shown.{attach_stated};
ghost use Rattle.amqp_link_worlds.specs.Attachable.{CanAttach, CanAsk, attach_asked};
ghost use Rattle.amqp_link_worlds.specs.Steps.{receiver_at_limit, sender_asking};
ghost use Rattle.amqp_link_worlds.specs.Worlds.{World};
ghost use Rattle.amqp_link_pair.specs.Endpoints.{IsAttached, HasStopped, MayAttach, ledger_at};

use crate::ends::{Ends, Stage};
use crate::resuming::Resuming;
use amqp_link_endpoint::endpoint::{LinkAttach, LinkExt};
use amqp_link_ledger::ledger::OutcomeLedger;
use amqp_link_receiver::receiver_link::ReceiverLink;
use amqp_link_types::frame::LinkFrame;
use amqp_link_types::types::{Attach, OutputHandle, Target};
use std::alloc::{AllocError, Global};
use std::mem;

// The error of an endpoint that refuses its step only if it is out of memory.
fn out_of_memory<L: LinkAttach>(error: L::AttachError) -> AllocError
    requires { error ≡ L.AttachError.out_of_memory }
{
    drop(error);
    AllocError
}

// An endpoint sends its attach, with all its deliveries.
fn send_whole<L: LinkAttach>(end: &mut L) -> Result<Attach, AllocError>
    requires copies { L.copies }
    requires can { CanAttach (L.shown end.old) }
    ensures sent { (number : TheHandle) → (L.shown end.old).output_handle ≡ Some number
        → IfOk result (λ attach. attach
        ≡ with_entries (attach_stated (L.shown end.old) number) (L.shown end.old).entries 0) }
    ensures done { (next : TheState) → next_state Call.SendAttach false (L.shown end.old).local_state ≡ Some next
        → OnOk result (end.new ≡ L.attached end.old false next) }
    ensures left { OnErr result (end.new ≡ end.old) }
{
    let (frame, outcomes) = match end.send_attach(false) {
        Ok(sent) => sent,
        Err(error) => return Err(out_of_memory::<L>(error)),
    };
    drop(outcomes);
    let LinkFrame::Attach(attach) = frame else {
        unreachable!()
    };
    Ok(attach.into_inner())
}

// An attach arrives at an endpoint that does not refuse it. Returns what follows from the exchange.
fn take<L: LinkAttach>(end: &mut L, attach: &Attach) -> Result<L::AttachExchange, AllocError>
    requires { L.refusal_of end.old attach.now ≡ None }
    ensures done { OnOk result (end.new ≡ L.taken end.old attach.now) }
    ensures exchanged { IfOk result (λ exchange. L.exchanged (L.shown end.old).unsettled
        (remote_entries attach.now) (L.shown end.new).local_state exchange) }
    ensures left { OnErr result (end.new ≡ end.old) }
{
    let copy = attach.clone()?;
    match end.on_incoming_attach(copy) {
        Ok(exchange) => Ok(exchange),
        Err(error) => Err(out_of_memory::<L>(error)),
    }
}

// Sets the output handle of an endpoint.
fn set_handle<L: LinkExt>(end: &mut L, handle: Option<OutputHandle>)
    ensures { end.new ≡ L.moved end.old (L.shown end.old).local_state handle }
{
    *end.output_handle_mut() = handle;
}

// Replaces the attach that was sent and has not arrived.
fn set(place: &mut Option<Attach>, attach: Option<Attach>)
    ensures { place.new ≡ attach }
{
    drop(mem::replace(place, attach));
}

// Sets the sender's output handle and frame limit.
fn prepare(ledger: &mut OutcomeLedger<Target>, handle: Option<OutputHandle>, limit: u32)
    ensures { ledger.new ≡ ledger_at handle limit ledger.old }
{
    set_handle(ledger, handle);
    ledger.set_max_frame_size(limit);
}

// Sets the receiver's output handle to 0, and its frame limit.
fn prepare_receiver(receiver: &mut ReceiverLink<Target>, limit: u32)
    ensures { receiver.new ≡ receiver_at_limit limit receiver.old }
{
    set_handle(receiver, Some(OutputHandle(0)));
    receiver.set_max_frame_size(limit);
}

// The sender sends its attach at handle 0 and at this frame limit. Refused only if it is out of memory; then
// its handle and its limit are as before.
fn ask(
    ledger: &mut OutcomeLedger<Target>,
    limit: u32,
    limit_before: u32,
) -> Result<Attach, AllocError>
    requires can { CanAsk limit ledger.old.link }
    requires before { ledger.old.link.max_frame_size ≡ limit_before }
    ensures sent { IfOk result (λ attach. attach ≡ attach_asked ledger.old.link) }
    ensures done { OnOk result (ledger.new
        ≡ record ledger.old { link = sender_asking limit ledger.old.link }) }
    ensures left { OnErr result (ledger.new ≡ ledger.old) }
{
    let handle_before = ledger.link().output_handle();
    prepare(ledger, Some(OutputHandle(0)), limit);
    match send_whole(ledger) {
        Ok(attach) => Ok(attach),
        Err(refused) => {
            prepare(ledger, handle_before, limit_before);
            Err(refused)
        }
    }
}

impl Ends {
    /// Continues from the stage of the endpoints until both are attached at this frame limit, and returns
    /// what is to be resumed. Refused only if it is out of memory; then the endpoints stay at the stage that
    /// they have reached.
    pub(crate) fn attach(&mut self, alloc: Global, limit: u32) -> Result<Resuming, AllocError>
        requires { (w : World) × MayAttach limit w self.old }
        ensures done { (w : World) → MayAttach limit w self.old → IfOk result (λ resuming.
            IsAttached limit w self.old resuming.list self.new) }
        ensures left { (w : World) → MayAttach limit w self.old
            → OnErr result (HasStopped limit w self.old self.new) }
    {
        match self.stage {
            Stage::Apart => self.go_on_apart(alloc, limit),
            Stage::Asked => self.go_on_asked(alloc),
            Stage::Taken => self.go_on_taken(alloc),
            Stage::Answered => self.go_on_answered(alloc),
            Stage::Together => unreachable!(),
        }
    }

    // The sender sends its attach; then the steps that follow.
    fn go_on_apart(&mut self, alloc: Global, limit: u32) -> Result<Resuming, AllocError>
        requires may { (w : World) × MayAttach limit w self.old }
        requires stage { self.old.stage ≡ Stage.Apart }
        ensures done { (w : World) → MayAttach limit w self.old → IfOk result (λ resuming.
            IsAttached limit w self.old resuming.list self.new) }
        ensures left { (w : World) → MayAttach limit w self.old
            → OnErr result (HasStopped limit w self.old self.new) }
    {
        let attach = ask(&mut self.ledger, limit, self.limit)?;
        prepare_receiver(&mut self.receiver, limit);
        self.limit = limit;
        self.stage = Stage::Asked;
        set(&mut self.attach, Some(attach));
        self.go_on_asked(alloc)
    }

    // The receiver takes the sender's attach; then the steps that follow.
    fn go_on_asked(&mut self, alloc: Global) -> Result<Resuming, AllocError>
        requires may { (limit : ℕ) × (w : World) × MayAttach limit w self.old }
        requires stage { self.old.stage ≡ Stage.Asked }
        ensures done { (limit : ℕ) (w : World) → MayAttach limit w self.old → IfOk result (λ resuming.
            IsAttached limit w self.old resuming.list self.new) }
        ensures left { (limit : ℕ) (w : World) → MayAttach limit w self.old
            → OnErr result (HasStopped limit w self.old self.new) }
    {
        let Some(attach) = &self.attach else {
            unreachable!()
        };
        drop(take(&mut self.receiver, attach)?);
        self.stage = Stage::Taken;
        set(&mut self.attach, None);
        self.go_on_taken(alloc)
    }

    // The receiver sends its attach; then the step that follows.
    fn go_on_taken(&mut self, alloc: Global) -> Result<Resuming, AllocError>
        requires may { (limit : ℕ) × (w : World) × MayAttach limit w self.old }
        requires stage { self.old.stage ≡ Stage.Taken }
        ensures done { (limit : ℕ) (w : World) → MayAttach limit w self.old → IfOk result (λ resuming.
            IsAttached limit w self.old resuming.list self.new) }
        ensures left { (limit : ℕ) (w : World) → MayAttach limit w self.old
            → OnErr result (HasStopped limit w self.old self.new) }
    {
        let attach = send_whole(&mut self.receiver)?;
        self.stage = Stage::Answered;
        set(&mut self.attach, Some(attach));
        self.go_on_answered(alloc)
    }

    // The sender takes the receiver's attach, and exchanges the deliveries of both.
    fn go_on_answered(&mut self, alloc: Global) -> Result<Resuming, AllocError>
        requires may { (limit : ℕ) × (w : World) × MayAttach limit w self.old }
        requires stage { self.old.stage ≡ Stage.Answered }
        ensures done { (limit : ℕ) (w : World) → MayAttach limit w self.old → IfOk result (λ resuming.
            IsAttached limit w self.old resuming.list self.new) }
        ensures left { (limit : ℕ) (w : World) → MayAttach limit w self.old
            → OnErr result (HasStopped limit w self.old self.new) }
    {
        let Some(attach) = &self.attach else {
            unreachable!()
        };
        let (exchange, outcomes) = take(&mut self.ledger, attach)?;
        drop(outcomes);
        self.stage = Stage::Together;
        set(&mut self.attach, None);
        Ok(Resuming::of(alloc, exchange))
    }
}
