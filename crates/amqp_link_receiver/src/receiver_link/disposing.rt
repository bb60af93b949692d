//! Dispositions that a receiver sends and takes (2.6.12, 2.7.6), and its reply to a detach (2.6.4 to
//! 2.6.6).
ghost use Rattle.std.specs.Prelude.{◌≡◌, ◌↔◌, ◌⊎◌, true, false, None, IsSome, is_some};
ghost use Rattle.std.specs.Prelude.{IfOk, IfErr, IsErrOf, OnOk, OnErr, if◌then◌else◌};
ghost use Rattle.std.specs.Option.{option_map};
ghost use Rattle.amqp_link_types.specs.Entries.{entry_at};
ghost use Rattle.amqp_link_dispositions.specs.Ending.{reply_of};
ghost use Rattle.amqp_link_dispositions.specs.Keeping.{is_settled_one, disposition_of_one, after_one};
ghost use Rattle.amqp_link_dispositions.specs.Keeping.{after_dispositions, map_after_sender_disposition};
ghost use Rattle.amqp_link_dispositions.specs.Listed.{kept_in_order};
ghost use Rattle.amqp_link_dispositions.specs.DispositionFrames.{CoverGroups};

use crate::receiver_link::ReceiverLink;
use amqp_link_dispositions::closing::reply_to;
use amqp_link_dispositions::receiver;
use amqp_link_dispositions::receiver::Settling;
use amqp_link_endpoint::endpoint::target::LinkTarget;
use amqp_link_types::delivery::DeliveryInfo;
use amqp_link_types::frame::LinkFrame;
use amqp_link_types::types::{
    DeliveryState, DeliveryTag, Detach, DispositionError, LinkRelayError,
};

impl<T: LinkTarget> ReceiverLink<T> {
    /// The disposition of one delivery, with this state: settled or not as the caller passes, otherwise by
    /// the delivery's own mode, otherwise by the link's; mode `First` settles, and `Second` does not. A
    /// settled delivery leaves the unsettled map; otherwise its entry gets this state. The disposition has
    /// `first` alone and no `last`. A delivery without an entry gets none, and nothing changes.
    ///
    /// The map changes in any state of the link: one that is not attached cannot send the disposition, and the
    /// entry of a delivery that it settles is gone all the same, so that a later attach does not report it.
    /// Dispose of it once the link is attached again and the sender has resumed it, by the id that it has then.
    ///
    /// Refused if it is out of memory, with nothing changed, and only for a delivery that has an entry and is
    /// not settled.
    pub fn dispose(
        &mut self,
        delivery_info: &DeliveryInfo,
        settled: Option<bool>,
        state: DeliveryState,
        batchable: bool,
    ) -> Result<Option<LinkFrame>, DispositionError>
        ensures frame { IfOk result (λ frame. frame ≡ disposition_of_one settled self.old.rcv_settle_mode state
            batchable delivery_info.now self.old.unsettled) }
        ensures after { OnOk result (self.new ≡ record self.old {
          unsettled = after_one (is_settled_one settled self.old.rcv_settle_mode delivery_info.now) state
              delivery_info.now.delivery_tag self.old.unsettled;
        }) }
        ensures memory { OnErr result (is_settled_one settled self.old.rcv_settle_mode delivery_info.now ≡ false) }
        ensures known { OnErr result (IsSome (entry_at self.old.unsettled delivery_info.now.delivery_tag)) }
        ensures left { OnErr result (self.new ≡ self.old) }
    {
        let how = Settling {
            given: settled,
            own: self.inner.rcv_settle_mode,
            batchable,
        };
        Ok(receiver::dispose(&mut self.unsettled, delivery_info, how, state)?)
    }

    /// The same of several deliveries, sorted by delivery id; those of one id stay in the order in which they
    /// are listed. Those without an entry are left out. A disposition covers as many as it can: consecutive
    /// ids that are settled in one mode. It always has `last`. A settled delivery does not get an entry
    /// again, even if it is listed twice.
    ///
    /// Refused only if it is out of memory, with nothing changed.
    ///
    /// Its cost grows with the number of the listed deliveries, whose ids are sorted.
    pub fn dispose_all(
        &mut self,
        delivery_infos: &[DeliveryInfo],
        settled: Option<bool>,
        state: DeliveryState,
        batchable: bool,
    ) -> Result<Vec<LinkFrame>, DispositionError>
        ensures frames { IfOk result (λ frames. CoverGroups settled self.old.rcv_settle_mode state batchable
            (kept_in_order self.old.unsettled delivery_infos.now) frames.items) }
        ensures after { OnOk result (self.new ≡ record self.old {
          unsettled = after_dispositions (is_settled_one settled self.old.rcv_settle_mode) state
              (kept_in_order self.old.unsettled delivery_infos.now) self.old.unsettled;
        }) }
        ensures left { OnErr result (self.new ≡ self.old) }
    {
        let how = Settling {
            given: settled,
            own: self.inner.rcv_settle_mode,
            batchable,
        };
        let unsettled = &mut self.unsettled;
        let frames = receiver::dispose_all(self.alloc, unsettled, delivery_infos, how, state)?;
        Ok(frames)
    }

    /// Takes the sender's disposition of one delivery. A settled delivery leaves the unsettled map; otherwise
    /// its entry, if there is one, gets this state, or none. A terminal state alone does not end the delivery
    /// here.
    ///
    /// The result states whether the disposition is to be answered, and is always false: only a sender
    /// answers one. Does not allocate.
    pub fn on_incoming_disposition(
        &mut self,
        settled: bool,
        state: Option<DeliveryState>,
        delivery_tag: &DeliveryTag,
    ) -> bool
        ensures echo { result ≡ false }
        ensures after { self.new ≡ record self.old {
          unsettled = map_after_sender_disposition settled state delivery_tag.now self.old.unsettled;
        } }
    {
        receiver::on_incoming_disposition(&mut self.unsettled, settled, state, delivery_tag);
        false
    }

    /// Takes a detach from the session. If the peer initiated it, this returns the reply, which has the
    /// link's output handle and the same `closed` and `error`. If it is the peer's reply to a detach of the
    /// link's own, nothing is returned. The link does not change: `apply_remote_detach_outcome`, or
    /// `on_detach_reply`, moves its state.
    ///
    /// Refused in this order, and only if the peer initiated the detach: `UnattachedHandle` without output
    /// handle; `OutOfMemory`, only if the detach carries an error.
    pub fn on_incoming_detach(
        &self,
        detach: &Detach,
        remote_initiated: bool,
    ) -> Result<Option<Detach>, LinkRelayError>
        ensures reply { IfOk result (λ reply. reply ≡ (if remote_initiated
            then option_map (λ handle. reply_of handle detach.now) self.now.output_handle else None)) }
        ensures unattached { IsErrOf result LinkRelayError.UnattachedHandle
            ↔ ((remote_initiated ≡ true) × (self.now.output_handle ≡ None)) }
        ensures memory { IfErr result (λ error. (error ≡ LinkRelayError.UnattachedHandle)
            ⊎ ((error ≡ LinkRelayError.OutOfMemory) × (remote_initiated ≡ true)
            × (is_some detach.now.error ≡ true))) }
    {
        if !remote_initiated {
            return Ok(None);
        }
        let Some(handle) = self.inner.output_handle else {
            return Err(LinkRelayError::UnattachedHandle);
        };
        Ok(Some(reply_to(detach, handle)?))
    }
}
