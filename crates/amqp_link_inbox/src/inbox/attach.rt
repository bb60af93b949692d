//! How an inbox is attached (2.6.3, 2.6.13).
ghost use Rattle.std.specs.Prelude.{◌≡◌, ◌⊎◌, [], false, None, Some, IfErr, IfOk, IsErrOf, MatchResult, OnErr, OnOk, is_none, if◌then◌else◌};
ghost use Rattle.amqp_link_endpoint.specs.AttachFields.{remote_entries};
ghost use Rattle.amqp_link_endpoint.specs.AttachSent.{IsTooLarge, SendsAttach};
ghost use Rattle.amqp_link_endpoint.specs.LinkStates.{Call, next_state};
ghost use Rattle.amqp_link_receiver.specs.ReceiverAttaches.{has_entries, receiver_attached, receiver_exchange_in, receiver_left, receiver_refusal, receiver_shown};
ghost use Rattle.amqp_link_inbox.specs.InboxAttaches;
ghost use Rattle.amqp_link_inbox.specs.InboxAttaches.{attached_by, forgotten_by, kept_after, refused_by, without_ids};

use crate::inbox::Inbox;
use crate::kept::Stage;
use amqp_link_endpoint::endpoint::LinkAttach;
use amqp_link_endpoint::endpoint::target::LinkTarget;
use amqp_link_receiver::receiver_link::ReceiverAttachExchange;
use amqp_link_types::frame::LinkFrame;
use amqp_link_types::types::{Attach, DeliveryTag, ReceiverAttachError};

/// A delivery that its sender does not know any more: what was kept of it is dropped.
#[derive(Debug, PartialEq, Eq, Drop)]
pub struct Forgotten {
    /// Its tag.
    pub tag: DeliveryTag,
    /// How far it had come.
    pub stage: Stage,
}

impl<T: LinkTarget> Inbox<T> {
    /// The attach to send, which states the deliveries that are kept and not settled, or, if they do not fit a frame, the
    /// first half of them, and so on, as `ReceiverLink::send_attach` does. If the link is reattached it states none, and
    /// nothing is kept by a tag any more; what is settled and complete can still be taken.
    ///
    /// Refused in this order, with nothing changed: `IllegalState` without output handle, or if there is no transition from
    /// this state; `AttachTooLarge` if even an empty unsettled map does not fit. `OutOfMemory` may come before the last.
    pub fn send_attach(&mut self, is_reattaching: bool) -> Result<LinkFrame, ReceiverAttachError>
        requires { (target copy : T) → T.is_clone target copy → copy ≡ target }
        ensures sent { IfOk result (λ frame. SendsAttach (receiver_shown T.sent_as self.old.link)
            (if is_reattaching then [] else self.old.link.unsettled) frame self.new.link.local_state) }
        ensures after { OnOk result (self.new ≡ record self.old {
          link = receiver_attached self.old.link is_reattaching self.new.link.local_state;
          deliveries = kept_after is_reattaching self.old.deliveries;
        }) }
        ensures refused { IfErr result (λ error. (error ≡ ReceiverAttachError.OutOfMemory)
            ⊎ ((error ≡ ReceiverAttachError.IllegalState) × ((self.old.link.output_handle ≡ None)
            ⊎ (next_state Call.SendAttach false self.old.link.local_state ≡ None)))
            ⊎ ((error ≡ ReceiverAttachError.AttachTooLarge) × IsTooLarge (receiver_shown T.sent_as self.old.link)
            (if is_reattaching then [] else self.old.link.unsettled))) }
        ensures memory { IsErrOf result ReceiverAttachError.OutOfMemory
            → (is_none self.old.link.output_handle ≡ false)
            × (is_none (next_state Call.SendAttach false self.old.link.local_state) ≡ false) }
        ensures left { OnErr result (self.new ≡ self.old) }
    {
        let (frame, outcomes) = self.link.send_attach(is_reattaching)?;
        drop(outcomes);
        self.deliveries.clear_if(is_reattaching);
        Ok(frame)
    }

    /// Takes the sender's attach, and returns what follows, and which deliveries the sender has forgotten: of those nothing
    /// is kept, and the link states them no more. It has forgotten what its unsettled map does not list, unless the map is
    /// incomplete. The others it resumes or settles: a transfer with `resume`, or a disposition, comes for each.
    ///
    /// No delivery has an id in this attachment until its sender has resumed it, so `dispose` refuses it with `NotResumed`.
    /// The link-credit stays as it was; a sender keeps its own, or begins with none: state a window by `send_flow`.
    ///
    /// Refused as `ReceiverLink::on_incoming_attach` refuses it, in that order and with the link that it leaves; where its
    /// state has moved, nothing is under way, and no delivery has an id. `OutOfMemory`, with nothing changed, may come before
    /// each of these. The attach is dropped also if it is refused.
    ///
    /// Its cost grows with the number of deliveries that are kept and with the entries of the attach.
    pub fn on_incoming_attach(
        &mut self,
        attach: Attach,
    ) -> Result<(ReceiverAttachExchange, Vec<Forgotten>), ReceiverAttachError>
        ensures exchange { IfOk result (λ answer.
            answer.0 ≡ receiver_exchange_in self.new.link.local_state (has_entries (remote_entries attach))) }
        ensures forgotten { IfOk result (λ answer. answer.1.items ≡ forgotten_by attach self.old.deliveries) }
        ensures after { OnOk result (self.new ≡ attached_by attach self.old) }
        ensures refused { MatchResult result
            (λ _. receiver_refusal T.admitted T.refused_by_receiver self.old.link attach ≡ None)
            (λ error. (error ≡ ReceiverAttachError.OutOfMemory)
            ⊎ (receiver_refusal T.admitted T.refused_by_receiver self.old.link attach ≡ Some error)) }
        ensures left { IfErr result (λ error. self.new ≡ refused_by error
            (receiver_left T.admitted T.refused_by_receiver error self.old.link attach) self.old) }
        ensures left_out_of_memory { IsErrOf result ReceiverAttachError.OutOfMemory → self.new ≡ self.old }
    {
        let Ok(forgotten) = self.deliveries.forgotten_by(self.alloc, &attach) else {
            drop(attach);
            return Err(ReceiverAttachError::OutOfMemory);
        };
        match self.link.on_incoming_attach(attach) {
            Ok(exchange) => {
                self.deliveries.forget_all(&mut self.link, &forgotten);
                self.begin_attachment();
                Ok((exchange, forgotten))
            }
            Err(error) => {
                drop(forgotten);
                if !leaves_all(&error) {
                    self.begin_attachment();
                }
                Err(error)
            }
        }
    }

    // An attachment begins: nothing is under way, and no delivery has an id.
    fn begin_attachment(&mut self)
        ensures { self.new ≡ record self.old { deliveries = without_ids self.old.deliveries; under_way = None } }
    {
        self.deliveries.drop_ids();
        drop(self.under_way.take());
    }
}

// Whether a refusal leaves the link as it was.
fn leaves_all(refusal: &ReceiverAttachError) -> bool
    ensures { result ≡ InboxAttaches.leaves_all refusal.now }
{
    matches!(
        refusal,
        ReceiverAttachError::IllegalState | ReceiverAttachError::OutOfMemory
    )
}
