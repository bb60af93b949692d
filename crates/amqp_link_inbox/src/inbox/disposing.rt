//! Dispositions that an inbox sends and takes (2.6.12, 2.7.6).
ghost use Rattle.std.specs.Prelude.{◌≡◌, ◌⊎◌, ◌↔◌, ◌∷◌, [], true, None, Some, Ok, Err, OnErr, OnOk, IfErr, IfOk, IsErrOf, IsOk, MatchOption, MatchResult, is_some, option_copied, if◌then◌else◌};
ghost use Rattle.std.specs.Option.{option_map};
ghost use Rattle.amqp_link_dispositions.specs.Ending.{reply_of};
ghost use Rattle.amqp_link_dispositions.specs.Listed.{kept_in_order};
ghost use Rattle.amqp_link_types.specs.Entries.{entry_at};
ghost use Rattle.amqp_link_types.specs.declared.types.definitions.Role.TheVariants as role;
ghost use Rattle.amqp_link_dispositions.specs.DispositionFrames.{CoverGroups, disposition_frame};
ghost use Rattle.amqp_link_dispositions.specs.Keeping.{is_settled_one};
ghost use Rattle.amqp_link_types.specs.Entries.{changed_at};
ghost use Rattle.amqp_link_inbox.specs.Disposing;
ghost use Rattle.amqp_link_inbox.specs.Disposing.{AnswersOutcome, after_sender_disposition, all_disposed, disposed, info_to_dispose, infos_to_dispose};

use crate::deliveries::settling::Settles;
use crate::error::DisposeError;
use crate::inbox::Inbox;
use crate::kept::{Contents, Kept};
use amqp_link_endpoint::endpoint::LinkExt;
use amqp_link_endpoint::endpoint::target::LinkTarget;
use amqp_link_types::delivery::DeliveryInfo;
use amqp_link_types::frame::LinkFrame;
use amqp_link_types::types::{DeliveryState, DeliveryTag, Detach, LinkRelayError};
use std::alloc::AllocError;

// Why an outcome of what is kept is not taken.
fn outcome_refusal(kept: Option<&Kept>) -> Option<DisposeError>
    ensures { result ≡ Disposing.outcome_refusal (option_copied kept.entry) }
{
    let Some(kept) = kept else {
        return Some(DisposeError::UnknownTag);
    };
    match kept.contents {
        _ if kept.settled => Some(DisposeError::UnknownTag),
        Contents::Taken => None,
        _ => Some(DisposeError::NotTaken),
    }
}

impl<T: LinkTarget> Inbox<T> {
    /// The disposition to send of a delivery that was taken, by the id that it has in the present attachment: settled or not
    /// as the caller passes, otherwise by the delivery's own mode, otherwise by the link's; mode `First` settles, and `Second`
    /// does not. A settled delivery is kept no longer; of another one the link states this state.
    ///
    /// Refused in this order, with nothing changed: `NotAttached` unless both attaches were exchanged; `UnknownTag` if no
    /// delivery with this tag is kept, or if it is settled; `NotTaken`; `NotResumed` if its sender has not resumed it since
    /// the last attach; and last `OutOfMemory`. While it is refused so, `keep_outcome` keeps the outcome.
    pub fn dispose(
        &mut self,
        tag: &DeliveryTag,
        settled: Option<bool>,
        state: DeliveryState,
        batchable: bool,
    ) -> Result<LinkFrame, DisposeError>
        ensures frame { IfOk result (λ frame.
            IfOk (info_to_dispose self.old.link.local_state (entry_at self.old.deliveries tag.now) tag.now) (λ info.
            frame ≡ disposition_frame role.Receiver info.delivery_id None
            (is_settled_one settled self.old.link.rcv_settle_mode info) state batchable)) }
        ensures refused { AnswersOutcome
            (info_to_dispose self.old.link.local_state (entry_at self.old.deliveries tag.now) tag.now) result }
        ensures after { OnOk result
            (IfOk (info_to_dispose self.old.link.local_state (entry_at self.old.deliveries tag.now) tag.now) (λ info.
            self.new ≡ disposed (is_settled_one settled self.old.link.rcv_settle_mode info) state tag.now self.old)) }
        ensures left { OnErr result (self.new ≡ self.old) }
    {
        let info = match self.info_of(tag) {
            Ok(info) => info,
            Err(refused) => {
                drop(state);
                return Err(refused);
            }
        };
        let settles = self.settles(settled, &info);
        let sent = self.link.dispose(&info, settled, state, batchable);
        drop(info);
        let frame = match sent {
            Ok(Some(frame)) => frame,
            Ok(None) => unreachable!(),
            Err(_) => return Err(DisposeError::OutOfMemory),
        };
        if settles {
            self.deliveries.remove(tag);
        }
        Ok(frame)
    }

    /// The dispositions to send of several deliveries, each settled as `dispose` settles it, in as few as
    /// `ReceiverLink::dispose_all` makes of them.
    ///
    /// Refused, with nothing changed, for the first delivery that `dispose` refuses, and with that reason; or with
    /// `OutOfMemory`, which may come first.
    ///
    /// Its cost grows with the number of the listed deliveries, whose ids are sorted.
    pub fn dispose_all(
        &mut self,
        tags: &[DeliveryTag],
        settled: Option<bool>,
        state: DeliveryState,
        batchable: bool,
    ) -> Result<Vec<LinkFrame>, DisposeError>
        ensures frames { IfOk result (λ frames.
            IfOk (infos_to_dispose self.old.link.local_state self.old.deliveries tags.now) (λ infos.
            CoverGroups settled self.old.link.rcv_settle_mode state batchable
            (kept_in_order self.old.link.unsettled infos) frames.items)) }
        ensures refused { MatchResult result
            (λ _. IsOk (infos_to_dispose self.old.link.local_state self.old.deliveries tags.now))
            (λ refusal. (refusal ≡ DisposeError.OutOfMemory)
            ⊎ (infos_to_dispose self.old.link.local_state self.old.deliveries tags.now ≡ Err refusal)) }
        ensures after { OnOk result
            (IfOk (infos_to_dispose self.old.link.local_state self.old.deliveries tags.now) (λ infos.
            self.new ≡ all_disposed settled state infos self.old)) }
        ensures left { OnErr result (self.new ≡ self.old) }
    {
        let infos = match self.infos_of(tags) {
            Ok(infos) => infos,
            Err(refused) => {
                drop(state);
                return Err(refused);
            }
        };
        let how = self.how(settled);
        match self
            .link
            .dispose_all(infos.as_slice(), settled, state, batchable)
        {
            Ok(frames) => {
                self.deliveries.remove_settled(how, infos.as_slice());
                drop(infos);
                Ok(frames)
            }
            Err(_) => {
                drop(infos);
                Err(DisposeError::OutOfMemory)
            }
        }
    }

    /// Keeps the outcome of a delivery that was taken, in any state of the link: the next attach states it, and the sender
    /// settles the delivery by it, or resumes it to learn it (2.6.13). Then dispose of it by the id that it has there. One that
    /// the sender settles is kept until it states the delivery no more, in an attach after that one.
    ///
    /// Refused in this order, with nothing changed: `UnknownTag` and `NotTaken`, as by `dispose`. Does not allocate.
    pub fn keep_outcome(
        &mut self,
        tag: &DeliveryTag,
        state: DeliveryState,
    ) -> Result<(), DisposeError>
        ensures refused { MatchOption (Disposing.outcome_refusal (entry_at self.old.deliveries tag.now))
            (result ≡ Ok tt) (λ refusal. result ≡ Err refusal) }
        ensures after { OnOk result (self.new ≡ record self.old {
          link = record self.old.link {
            unsettled = changed_at (λ _. Some state) (tag.now ∷ []) self.old.link.unsettled;
          };
        }) }
        ensures left { OnErr result (self.new ≡ self.old) }
    {
        if let Some(refused) = outcome_refusal(self.deliveries.get(tag)) {
            drop(state);
            return Err(refused);
        }
        self.link.on_incoming_disposition(false, Some(state), tag);
        Ok(())
    }

    /// Takes the sender's disposition of one delivery, whose tag the session finds by the id. If it settles the delivery,
    /// one that is complete waits to be taken as a settled one, and of one that was taken nothing is kept; the link states
    /// it no more. Otherwise the link states this state, or none, if it has an entry.
    ///
    /// Refused only if it is out of memory, with nothing changed, and only if it settles the delivery: room is made for what
    /// waits.
    pub fn on_incoming_disposition(
        &mut self,
        settled: bool,
        state: Option<DeliveryState>,
        tag: &DeliveryTag,
    ) -> Result<(), AllocError>
        ensures after { OnOk result (self.new ≡ after_sender_disposition settled state tag.now self.old) }
        ensures memory { OnErr result (settled ≡ true) }
        ensures left { OnErr result (self.new ≡ self.old) }
    {
        if let Err(refused) = self.deliveries.settle_if(settled, tag) {
            drop(state);
            return Err(refused);
        }
        self.link.on_incoming_disposition(settled, state, tag);
        Ok(())
    }

    /// Takes a detach from the session, and returns the reply, if the peer initiated it, as
    /// `ReceiverLink::on_incoming_detach` does. What is kept stays: the peer may attach the link again.
    ///
    /// Refused in this order, and only if the peer initiated the detach: `UnattachedHandle` without output handle;
    /// `OutOfMemory`, only if the detach carries an error.
    pub fn on_incoming_detach(
        &self,
        detach: &Detach,
        remote_initiated: bool,
    ) -> Result<Option<Detach>, LinkRelayError>
        ensures reply { IfOk result (λ reply. reply ≡ (if remote_initiated
            then option_map (λ handle. reply_of handle detach.now) self.now.link.output_handle else None)) }
        ensures unattached { IsErrOf result LinkRelayError.UnattachedHandle
            ↔ ((remote_initiated ≡ true) × (self.now.link.output_handle ≡ None)) }
        ensures memory { IsErrOf result LinkRelayError.OutOfMemory
            → (remote_initiated ≡ true) × (is_some detach.now.error ≡ true) }
    {
        self.link.on_incoming_detach(detach, remote_initiated)
    }

    // Whether a disposition settles the delivery with this info.
    fn settles(&self, settled: Option<bool>, info: &DeliveryInfo) -> bool
        ensures { result ≡ is_settled_one settled self.now.link.rcv_settle_mode info.now }
    {
        self.how(settled).settles(info.rcv_settle_mode())
    }

    // How a disposition settles deliveries.
    fn how(&self, settled: Option<bool>) -> Settles
        ensures { result ≡ record { given = settled; own = self.now.link.rcv_settle_mode } }
    {
        Settles {
            given: settled,
            own: *self.link.rcv_settle_mode(),
        }
    }

    // What dispositions name the deliveries with these tags by.
    fn infos_of(&self, tags: &[DeliveryTag]) -> Result<Vec<DeliveryInfo>, DisposeError>
        ensures infos { IfOk result (λ infos.
            infos_to_dispose self.now.link.local_state self.now.deliveries tags.now ≡ Ok infos.items) }
        ensures refused { IfErr result (λ refusal. (refusal ≡ DisposeError.OutOfMemory)
            ⊎ (infos_to_dispose self.now.link.local_state self.now.deliveries tags.now ≡ Err refusal)) }
    {
        let mut infos = Vec::new(self.alloc);
        for tag in tags {
            let info = match self.info_of(tag) {
                Ok(info) => info,
                Err(refused) => {
                    drop(infos);
                    return Err(refused);
                }
            };
            if infos.push(info).is_err() {
                drop(infos);
                return Err(DisposeError::OutOfMemory);
            }
        }
        Ok(infos)
    }

    // What a disposition names the delivery with this tag by.
    fn info_of(&self, tag: &DeliveryTag) -> Result<DeliveryInfo, DisposeError>
        ensures info { IfOk result (λ info.
            info_to_dispose self.now.link.local_state (entry_at self.now.deliveries tag.now) tag.now ≡ Ok info) }
        ensures named { IfOk result (λ info. info.delivery_tag ≡ tag.now) }
        ensures refused { AnswersOutcome
            (info_to_dispose self.now.link.local_state (entry_at self.now.deliveries tag.now) tag.now) result }
    {
        if !self.may_receive() {
            return Err(DisposeError::NotAttached);
        }
        let kept = self.deliveries.get(tag);
        if let Some(refused) = outcome_refusal(kept) {
            return Err(refused);
        }
        let Some(kept) = kept else { unreachable!() };
        let Some(id) = kept.id else {
            return Err(DisposeError::NotResumed);
        };
        Ok(DeliveryInfo::new(id, tag.clone()?, kept.mode))
    }
}
