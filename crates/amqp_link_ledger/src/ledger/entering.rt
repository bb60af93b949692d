//! Deliveries that are sent again, registered again without being sent, or withdrawn (2.6.13).
ghost use Rattle.std.specs.Prelude.{◌≡◌, ◌∷◌, [], IfOk, OnOk, OnErr};
ghost use Rattle.amqp_link_types.specs.Entries.{entry_at, with_entry, without_entry};
ghost use Rattle.amqp_link_split.specs.Fitting.{IsFitting};
ghost use Rattle.amqp_link_sender.specs.Senders.{IsSent, is_pending, unsettled_transfer_tests, HandsBackThenOutOfMemory};
ghost use Rattle.amqp_link_ledger.specs.Fates.{Change, after};

use crate::ledger::OutcomeLedger;
use amqp_link_endpoint::endpoint::target::LinkTarget;
use amqp_link_types::delivery::UnsettledMessage;
use amqp_link_types::frame::LinkFrame;
use amqp_link_types::types::{DeliveryTag, LinkStateError, Payload, Transfer};

impl<T: LinkTarget> OutcomeLedger<T> {
    /// Removes the entry of a delivery and returns it, if the delivery is pending, as `SenderLink::withdraw`
    /// does. Its registration is withdrawn. Does not allocate.
    pub fn withdraw(&mut self, tag: &DeliveryTag) -> Option<UnsettledMessage>
        ensures entry { result ≡ entry_at self.old.link.unsettled tag.now }
        ensures link { self.new.link ≡ record self.old.link {
          unsettled = without_entry self.old.link.unsettled tag.now;
        } }
        ensures records { self.new.records ≡ after (Change.Withdraws tag.now) self.old.records }
    {
        let entry = self.link.withdraw(tag);
        self.registrations.withdraw(tag);
        entry
    }

    /// Registers the entry of a delivery again without sending it, as `SenderLink::put_back` does, so that
    /// the next exchange resolves it. This makes a registration with the next number.
    ///
    /// Refused in this order, with nothing changed and the entry returned: `TagPending`; `OutOfMemory`.
    pub fn put_back(
        &mut self,
        tag: DeliveryTag,
        entry: UnsettledMessage,
    ) -> Result<(), (LinkStateError, UnsettledMessage)>
        ensures link { OnOk result (self.new.link ≡ record self.old.link {
          unsettled = with_entry self.old.link.unsettled tag entry;
        }) }
        ensures records { OnOk result (self.new.records ≡ after (Change.Enters tag) self.old.records) }
        ensures refused { HandsBackThenOutOfMemory result entry
            ((is_pending self.old.link tag, LinkStateError.TagPending) ∷ []) }
        ensures left { OnErr result (self.new ≡ self.old) }
    {
        if self.is_pending(&tag) {
            drop(tag);
            return Err((LinkStateError::TagPending, entry));
        }
        let Ok(reserved) = self.registrations.reserve(self.alloc, tag.as_bytes()) else {
            drop(tag);
            return Err((LinkStateError::OutOfMemory, entry));
        };
        match self.link.put_back(tag, entry) {
            Ok(()) => {
                self.registrations.register(reserved);
                Ok(())
            }
            Err(refused) => {
                drop(reserved);
                Err(refused)
            }
        }
    }

    /// Sends the rest of a delivery with this transfer, and registers its entry, as
    /// `SenderLink::send_unsettled_transfer` does. This makes a registration with the next number.
    ///
    /// Refused in this order, with nothing changed and the entry returned: `IllegalState` without input
    /// handle; `TagPending`; `NoRoom`; `OutOfMemory`.
    pub fn send_unsettled_transfer(
        &mut self,
        mut transfer: Transfer,
        rest: &Payload,
        tag: DeliveryTag,
        entry: UnsettledMessage,
    ) -> Result<Vec<LinkFrame>, (LinkStateError, UnsettledMessage)>
        ensures sent { IfOk result (λ frames. IsSent self.old.link transfer rest.now frames.items) }
        ensures fits { IfOk result (λ frames.
            IsFitting transfer self.old.link.max_frame_size rest.now frames.items) }
        ensures link { OnOk result (self.new.link ≡ record self.old.link {
          unsettled = with_entry self.old.link.unsettled tag entry;
        }) }
        ensures records { OnOk result (self.new.records ≡ after (Change.Enters tag) self.old.records) }
        ensures refused { HandsBackThenOutOfMemory result entry
            (unsettled_transfer_tests self.old.link transfer tag rest.now) }
        ensures left { OnErr result (self.new ≡ self.old) }
    {
        let Ok(reserved) = self.registrations.reserve(self.alloc, tag.as_bytes()) else {
            // Out of memory, unless the endpoint refuses it.
            let admitted = self.link.can_send_unsettled(&mut transfer, &tag, rest);
            drop((transfer, tag));
            return Err((admitted.err().unwrap_or(LinkStateError::OutOfMemory), entry));
        };
        match self
            .link
            .send_unsettled_transfer(transfer, rest, tag, entry)
        {
            Ok(frames) => {
                self.registrations.register(reserved);
                Ok(frames)
            }
            Err(refused) => {
                drop(reserved);
                Err(refused)
            }
        }
    }
}
