//! Dispositions that a sender sends and takes (2.6.12, 2.7.6), and the outcomes of its deliveries when the
//! link is closed (2.6.6).
ghost use Rattle.std.specs.Prelude.{◌≡◌, ◌≢◌, ◌∷◌, ◌&&◌, ◌↔◌, ◌⊎◌, [], map, true, false, None};
ghost use Rattle.std.specs.Prelude.{IfOk, IfErr, IfSome, IsSome, IsErrOf, OnOk, OnErr, if◌then◌else◌};
ghost use Rattle.std.specs.Option.{option_map};
ghost use Rattle.amqp_link_dispositions.specs.Ending.{detach_allocates, ended_by, reply_of, map_after_receiver_disposition};
ghost use Rattle.amqp_link_dispositions.specs.Ending;
ghost use Rattle.amqp_link_dispositions.specs.Listed.{tags_in_order};
ghost use Rattle.amqp_link_sender.specs.Senders.{settles};
ghost use Rattle.amqp_link_sender.specs.SenderDisposes.{Dispositions, ended_at, after_disposing, is_echoed};

use crate::sender_link::{DispositionAnswer, SenderLink};
use amqp_link_dispositions::closing::{all_closed, reply_to};
use amqp_link_dispositions::sender;
use amqp_link_endpoint::endpoint::target::LinkTarget;
use amqp_link_types::delivery::Outcomes;
use amqp_link_types::frame::LinkFrame;
use amqp_link_types::types::{
    DeliveryNumber, DeliveryState, DeliveryTag, Detach, DispositionError, LinkRelayError,
    ReceiverSettleMode, SenderSettleMode,
};
use std::alloc::AllocError;

impl<T: LinkTarget> SenderLink<T> {
    /// The disposition of one delivery, with this state, settled or not. If it settles a pending delivery,
    /// that leaves the unsettled map and is resolved with the state stored in its entry; otherwise the entry,
    /// if there is one, gets this state. The disposition has `first` alone and no `last`. In mode `Settled`
    /// there is no disposition, and nothing is resolved.
    ///
    /// The map changes in any state of the link: one that is not attached cannot send the disposition, and a
    /// delivery that it settles is resolved all the same. The id is the one that the delivery has in this
    /// attachment.
    ///
    /// Refused only if it is out of memory, with nothing changed; in mode `Settled` it does not allocate.
    pub fn dispose(
        &mut self,
        delivery_id: DeliveryNumber,
        delivery_tag: &DeliveryTag,
        settled: bool,
        state: DeliveryState,
        batchable: bool,
    ) -> Result<(Vec<LinkFrame>, Outcomes), DispositionError>
        ensures frames { IfOk result (λ answer.
            Dispositions self.old settled state batchable (delivery_id ∷ []) answer.0.items) }
        ensures outcomes { IfOk result (λ answer.
            answer.1.items ≡ ended_at self.old settled (delivery_tag.now ∷ [])) }
        ensures after { OnOk result
            (self.new ≡ after_disposing self.old settled state (delivery_tag.now ∷ [])) }
        ensures memory { OnErr result (settles self.old.snd_settle_mode ≡ false) }
        ensures left { OnErr result (self.new ≡ self.old) }
    {
        if let Some(nothing) = self.skip_dispositions() {
            drop(state);
            return Ok(nothing);
        }
        let answer = sender::dispose(
            self.alloc,
            &mut self.unsettled,
            delivery_id,
            delivery_tag,
            settled,
            state,
            batchable,
        )?;
        Ok(answer)
    }

    /// The same of several deliveries, sorted by delivery id; those of one id stay in the order in which they
    /// are listed. The outcomes have this order. The dispositions cover all ids, each as often as it is
    /// listed, in the longest runs; a run of one id has no `last`.
    ///
    /// Refused only if it is out of memory, with nothing changed; in mode `Settled`, and of an empty list, it
    /// does not allocate.
    ///
    /// Its cost grows with the number of the listed deliveries, whose ids are sorted.
    pub fn batch_dispose(
        &mut self,
        ids_and_tags: &[(DeliveryNumber, DeliveryTag)],
        settled: bool,
        state: DeliveryState,
        batchable: bool,
    ) -> Result<(Vec<LinkFrame>, Outcomes), DispositionError>
        ensures frames { IfOk result (λ answer.
            Dispositions self.old settled state batchable (map (λ pair. pair.0) ids_and_tags.now) answer.0.items) }
        ensures outcomes { IfOk result (λ answer.
            answer.1.items ≡ ended_at self.old settled (tags_in_order ids_and_tags.now)) }
        ensures after { OnOk result
            (self.new ≡ after_disposing self.old settled state (tags_in_order ids_and_tags.now)) }
        ensures memory { OnErr result ((settles self.old.snd_settle_mode ≡ false) × (ids_and_tags.now ≢ [])) }
        ensures left { OnErr result (self.new ≡ self.old) }
    {
        if let Some(nothing) = self.skip_dispositions() {
            drop(state);
            return Ok(nothing);
        }
        let answer = sender::batch_dispose(
            self.alloc,
            &mut self.unsettled,
            ids_and_tags,
            settled,
            state,
            batchable,
        )?;
        Ok(answer)
    }

    // The result in mode `Settled`, in which no delivery awaits its outcome: no frames and no outcomes.
    fn skip_dispositions(&self) -> Option<(Vec<LinkFrame>, Outcomes)>
        ensures settled { IsSome result ↔ (settles self.now.snd_settle_mode ≡ true) }
        ensures frames { IfSome result (λ answer. answer.0.items ≡ []) }
        ensures outcomes { IfSome result (λ answer. answer.1.items ≡ []) }
    {
        match self.inner.snd_settle_mode {
            SenderSettleMode::Settled => Some((Vec::new(self.alloc), Vec::new(self.alloc))),
            _ => None,
        }
    }

    /// Takes the receiver's disposition of one delivery. A pending delivery is resolved with this state,
    /// or with none, if the disposition settles it or the state is terminal; it then leaves the unsettled
    /// map. Otherwise the map holds this state, or none, for it. A tag that is not pending resolves nothing.
    ///
    /// If `echo` is set, the caller answers with a disposition that settles the delivery: `dispose` with
    /// the same id, tag and state, and `settled` true. It is set if the disposition does not settle and the
    /// receiver settles only after the sender (`rcv_settle_mode` is `Second`). Does not allocate.
    pub fn on_incoming_disposition(
        &mut self,
        settled: bool,
        state: Option<DeliveryState>,
        delivery_tag: &DeliveryTag,
    ) -> DispositionAnswer
        ensures echo { result.echo ≡ is_echoed settled self.old.rcv_settle_mode }
        ensures ended { result.outcome ≡ ended_by settled state delivery_tag.now self.old.unsettled }
        ensures after { self.new ≡ record self.old {
          unsettled = map_after_receiver_disposition settled state delivery_tag.now self.old.unsettled;
        } }
    {
        let is_second = matches!(self.inner.rcv_settle_mode, ReceiverSettleMode::Second);
        let unsettled = &mut self.unsettled;
        let outcome = sender::on_incoming_disposition(unsettled, settled, state, delivery_tag);
        DispositionAnswer {
            echo: !settled && is_second,
            outcome,
        }
    }

    /// Resolves each pending delivery, in the order of the unsettled map, since this detach closes the link:
    /// with `RemoteClosedWithError` if the detach carries an error, otherwise with `RemoteClosed`. The map is
    /// empty afterwards.
    ///
    /// Refused only if it is out of memory, with nothing changed; without pending deliveries it does not
    /// allocate.
    ///
    /// Its cost grows with the number of pending deliveries.
    pub fn fail_pending_unsettled(&mut self, detach: &Detach) -> Result<Outcomes, AllocError>
        ensures ended { IfOk result (λ outcomes.
            outcomes.items ≡ Ending.all_closed detach.now.error self.old.unsettled) }
        ensures after { OnOk result (self.new ≡ record self.old { unsettled = [] }) }
        ensures memory { OnErr result (self.old.unsettled ≢ []) }
        ensures left { OnErr result (self.new ≡ self.old) }
    {
        all_closed(self.alloc, &mut self.unsettled, &detach.error)
    }

    /// Takes a detach from the session. If the peer initiated it, this returns the reply, which has the
    /// link's output handle and the same `closed` and `error`; if it also closes the link, each pending
    /// delivery is resolved as by `fail_pending_unsettled`. If it is the peer's reply to a detach of the
    /// link's own, nothing is returned or resolved.
    ///
    /// The state stays as it is: `apply_remote_detach_outcome`, or `on_detach_reply`, moves it.
    ///
    /// Refused in this order, with nothing changed, and only if the peer initiated the detach:
    /// `UnattachedHandle` without output handle; `OutOfMemory`, only if the detach carries an error, which is
    /// copied for the reply, or closes the link while deliveries are pending.
    ///
    /// If the peer closes the link by it, its cost grows with the number of pending deliveries.
    pub fn on_incoming_detach(
        &mut self,
        detach: &Detach,
        remote_initiated: bool,
    ) -> Result<(Option<Detach>, Outcomes), LinkRelayError>
        ensures reply { IfOk result (λ answer. answer.0 ≡ (if remote_initiated
            then option_map (λ handle. reply_of handle detach.now) self.old.output_handle else None)) }
        ensures ended { IfOk result (λ answer. answer.1.items
            ≡ (if remote_initiated && detach.now.closed
            then Ending.all_closed detach.now.error self.old.unsettled else [])) }
        ensures after { OnOk result (self.new ≡ (if remote_initiated && detach.now.closed
            then record self.old { unsettled = [] } else self.old)) }
        ensures unattached { IsErrOf result LinkRelayError.UnattachedHandle
            ↔ ((remote_initiated ≡ true) × (self.old.output_handle ≡ None)) }
        ensures memory { IfErr result (λ error. (error ≡ LinkRelayError.UnattachedHandle)
            ⊎ ((error ≡ LinkRelayError.OutOfMemory) × (remote_initiated ≡ true)
            × (detach_allocates detach.now self.old.unsettled ≡ true))) }
        ensures left { OnErr result (self.new ≡ self.old) }
    {
        if !remote_initiated {
            return Ok((None, Vec::new(self.alloc)));
        }
        let Some(handle) = self.inner.output_handle else {
            return Err(LinkRelayError::UnattachedHandle);
        };
        let reply = reply_to(detach, handle)?;
        if !detach.closed {
            return Ok((Some(reply), Vec::new(self.alloc)));
        }
        match self.fail_pending_unsettled(detach) {
            Ok(outcomes) => Ok((Some(reply), outcomes)),
            Err(refused) => {
                drop(reply);
                Err(refused.into())
            }
        }
    }
}
