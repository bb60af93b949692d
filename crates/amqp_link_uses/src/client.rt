//! A client: it sends one request at a time, and gets the outcome of each once.
//!
//! It attaches first (`Opening::new`, `Opening::on_attach`). The server grants credit by its flows (`on_flow`). Each
//! request takes one credit, and the client waits for the server's disposition before it sends another.

ghost use Rattle.std.specs.Prelude.{◌≡◌, ◌↔◌, ◌⊎◌, true, false, [], None, Some, Ok, map, IfOk, Err, IfErr, IfSome, OnOk, OnErr};
ghost use Rattle.std.specs.Prelude.{IsSome, IsSomeAnd, IsErrOf, MatchOption, MatchResult};
ghost use Rattle.std.specs.List.{concat};
ghost use Rattle.amqp_link.specs.Counts.{sender_after, sender_reply};
ghost use Rattle.amqp_link.specs.Ending.{does_end};
ghost use Rattle.amqp_link.specs.Entries.{entry_at, with_entry};
ghost use Rattle.amqp_link.specs.Frames.{payload_of};
ghost use Rattle.amqp_link.specs.AttachSent.{IsTooLarge, SendsAttach};
ghost use Rattle.amqp_link.specs.SenderAttaches.{sender_attached, sender_left, sender_refusal, sender_shown, sender_taken, sender_taking_allocates};
ghost use Rattle.amqp_link.specs.SenderDisposes.{is_echoed};
ghost use Rattle.amqp_link.specs.Senders.{delivery_of, new_entry, payload_tests};
ghost use Rattle.amqp_link.specs.Targets.{plain_target};
ghost use Rattle.amqp_link.specs.Termini.{sender_refuses_target};
ghost use Rattle.amqp_link.specs.declared.state.LinkState.{LinkState};
ghost use Rattle.amqp_link.specs.declared.types.TargetArchetype.TheVariants as TargetArchetype;
ghost use Rattle.amqp_link_uses.specs.Clients.{RequestsThenOutOfMemory, attach_failed, opened_with};

use amqp_link::delivery::Settlement;
use amqp_link::endpoint::Action;
use amqp_link::errors::{LinkRelayError, LinkStateError, SenderAttachError};
use amqp_link::sender_link::DispositionAnswer;
use amqp_link::types::{Attach, LinkFlow, OutputHandle, SenderSettleMode, Target};
use amqp_link::{
    DeliveryState, DeliveryTag, LinkAttach, LinkExt, LinkFrame, LinkParts, Payload, SenderLink,
    Sending, Waiting,
};
use std::alloc::Global;

/// Why a request is not sent.
#[derive(Debug, PartialEq, Eq, Drop)]
pub enum RequestError {
    /// Another request has no outcome yet.
    Busy,
    /// The server has granted no more credit: the client tries again after its next flow.
    CreditMissing,
    /// The link refuses it.
    Link(LinkStateError),
}

/// A link that is being attached: the client has sent its attach, and the server's has not arrived.
#[derive(Drop)]
pub struct Opening {
    /// The link.
    pub link: SenderLink<Target>,
}

impl Opening {
    /// A sender with these parts at an output handle, which sends its deliveries unsettled, and its attach,
    /// which the caller sends.
    ///
    /// Refused with `AttachTooLarge` if the attach does not fit a frame. `OutOfMemory` may come before that.
    pub fn new(
        alloc: Global,
        mut parts: LinkParts<Target>,
        handle: OutputHandle,
    ) -> Result<(Opening, LinkFrame), SenderAttachError>
        ensures handle { IfOk result (λ opened. opened.0.link.output_handle ≡ Some handle) }
        ensures mode { IfOk result (λ opened.
            opened.0.link.snd_settle_mode ≡ SenderSettleMode.Unsettled) }
        ensures sent { IfOk result (λ opened. SendsAttach (sender_shown TargetArchetype.Target
            (opened_with parts handle)) [] opened.1 opened.0.link.local_state) }
        ensures opened { IfOk result (λ opened. opened.0.link
            ≡ sender_attached (opened_with parts handle) false opened.0.link.local_state) }
        ensures refused { IfErr result (λ error. (error ≡ SenderAttachError.OutOfMemory)
            ⊎ ((error ≡ SenderAttachError.AttachTooLarge)
            × IsTooLarge (sender_shown TargetArchetype.Target (opened_with parts handle)) [])) }
    {
        parts.snd_settle_mode = SenderSettleMode::Unsettled;
        let mut link = SenderLink::new(alloc, parts).with_output_handle(handle);
        match link.send_attach(false) {
            Ok((attach, outcomes)) => {
                drop(outcomes);
                Ok((Opening { link }, attach))
            }
            Err(refused) => {
                drop(link);
                Err(refused)
            }
        }
    }

    /// Takes the server's attach. If the link refuses it, the link is over, and the caller does what the action says:
    /// it sends the detach that closes the link, or ends the session, or does nothing. With the error `OutOfMemory` it
    /// is `Nothing` too, though the server takes the link for attached: the caller ends the session.
    pub fn on_attach(mut self, attach: Attach) -> Result<Client, (SenderAttachError, Action)>
        ensures request { IfOk result (λ client. client.request ≡ None) }
        ensures mode { IfOk result (λ client. client.link.snd_settle_mode ≡ self.link.snd_settle_mode) }
        ensures taken { IfOk result (λ client. client.link ≡ sender_taken plain_target self.link attach) }
        ensures refused { MatchResult result
            (λ _. sender_refusal plain_target (λ own theirs. sender_refuses_target theirs) self.link attach ≡ None)
            (λ refused. (refused ≡ (SenderAttachError.OutOfMemory, Action.Nothing))
            ⊎ IsSomeAnd (sender_refusal plain_target (λ own theirs. sender_refuses_target theirs) self.link attach)
            (λ error. refused ≡ attach_failed error (sender_left plain_target
            (λ own theirs. sender_refuses_target theirs) error self.link attach))) }
        ensures memory { IfErr result (λ refused. refused.0 ≡ SenderAttachError.OutOfMemory
            → (sender_taking_allocates self.link attach ≡ true)
            ⊎ IsSome (sender_refusal plain_target (λ own theirs. sender_refuses_target theirs) self.link attach)) }
    {
        match self.link.on_incoming_attach(attach) {
            Ok(exchange) => {
                drop(exchange);
                Ok(Client {
                    link: self.link,
                    request: None,
                })
            }
            Err(refused) => {
                let handled = self.link.handle_attach_error(refused);
                drop(self);
                Err(handled.unwrap_or((SenderAttachError::OutOfMemory, Action::Nothing)))
            }
        }
    }
}

/// A client whose link is attached. If the server detaches it, the client is over: `link` has the outcome of the
/// request (`SenderLink::on_incoming_detach`).
#[derive(Drop)]
pub struct Client {
    /// The link.
    pub link: SenderLink<Target>,
    /// The tag of the request that has no outcome yet.
    pub request: Option<DeliveryTag>,
}

impl Client {
    /// Takes the server's flow, which grants credit. Returns the flow to send back, if there is one.
    pub fn on_flow(&mut self, flow: LinkFlow) -> Result<Option<LinkFlow>, LinkRelayError>
        ensures answer { MatchOption self.old.link.output_handle
            (result ≡ Err LinkRelayError.UnattachedHandle)
            (λ handle. result ≡ Ok (sender_reply flow self.old.link.flow_state handle)) }
        ensures after { OnOk result (self.new ≡ record self.old {
          link = record self.old.link { flow_state = sender_after flow self.old.link.flow_state };
        }) }
        ensures left { OnErr result (self.new ≡ self.old) }
    {
        self.link.on_incoming_flow(flow)
    }

    /// Sends a request as one unsettled delivery, and returns the frames to send, in their order.
    ///
    /// Refused in this order, with nothing changed: `Busy`; `IllegalState` of the link without output handle or input
    /// handle; `CreditMissing`; `TagPending` and `NoRoom` of the link; its `OutOfMemory`, only if none of these holds.
    pub fn request(&mut self, payload: &Payload) -> Result<Vec<LinkFrame>, RequestError>
        ensures sent { IfOk result (λ frames. concat (map payload_of frames.items) ≡ payload.now) }
        ensures awaited { OnOk result (IsSome self.new.request) }
        ensures entry { self.old.link.snd_settle_mode ≡ SenderSettleMode.Unsettled
            → OnOk result (IfSome self.new.request (λ tag.
            self.new.link.unsettled ≡ with_entry self.old.link.unsettled tag (new_entry 0 payload.now))) }
        ensures busy { IsErrOf result RequestError.Busy ↔ IsSome self.old.request }
        ensures refused { self.old.request ≡ None → RequestsThenOutOfMemory result
            (payload_tests self.old.link (delivery_of 0 None None false) payload.now) }
        ensures left { OnErr result (self.new ≡ self.old) }
    {
        if self.request.is_some() {
            return Err(RequestError::Busy);
        }
        let sending = self
            .link
            .send_payload(Waiting::Nothing, payload, 0, None, None, false);
        match sending {
            Ok(Sending::Sent { settlement, frames }) => {
                let (Settlement::Unsettled(tag) | Settlement::Settled(tag)) = settlement;
                self.request = Some(tag);
                Ok(frames)
            }
            Ok(Sending::CreditMissing) => Err(RequestError::CreditMissing),
            Err(refused) => Err(RequestError::Link(refused)),
        }
    }

    /// Takes the server's disposition of a delivery. It has the outcome of the request, if the disposition gives it one:
    /// each outcome is returned once, whatever arrives later. If `echo` is set, the server waits for an answer, a
    /// disposition that settles the delivery: `link.dispose` makes it. A disposition of another delivery changes nothing.
    pub fn on_disposition(
        &mut self,
        settled: bool,
        state: Option<DeliveryState>,
        tag: &DeliveryTag,
    ) -> DispositionAnswer
        ensures once { IsSome result.outcome → (self.old.request ≡ Some tag.now) × (self.new.request ≡ None) }
        ensures other { (self.old.request ≡ Some tag.now → ⊥)
            → (result ≡ record { echo = false; outcome = None }) × (self.new ≡ self.old) }
        ensures echo { self.old.request ≡ Some tag.now
            → result.echo ≡ is_echoed settled self.old.link.rcv_settle_mode }
        ensures ended { self.old.request ≡ Some tag.now → IsSome (entry_at self.old.link.unsettled tag.now)
            → does_end settled state ≡ true → result.outcome ≡ Some (tag.now, Ok state) }
    {
        let is_awaited = match &self.request {
            Some(request) => request == tag,
            None => false,
        };
        if !is_awaited {
            drop(state);
            return DispositionAnswer {
                echo: false,
                outcome: None,
            };
        }
        let answer = self.link.on_incoming_disposition(settled, state, tag);
        if answer.outcome.is_some() {
            drop(self.request.take());
        }
        answer
    }
}
