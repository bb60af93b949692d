//! Deliveries that dispositions settle are kept no longer (2.6.12).
ghost use Rattle.std.specs.Prelude.{◌≡◌};
ghost use Rattle.amqp_link_types.specs.Entries.{without_entries};
ghost use Rattle.amqp_link_dispositions.specs.DispositionFrames;
ghost use Rattle.amqp_link_inbox.specs.Disposing.{settled_tags};

use crate::deliveries::Deliveries;
use amqp_link_types::delivery::DeliveryInfo;
use amqp_link_types::types::ReceiverSettleMode;

// How a disposition settles deliveries: as the user passes, otherwise by each delivery's own mode, otherwise by the link's.
#[derive(Clone, Copy)]
pub(crate) struct Settles {
    pub(crate) given: Option<bool>,
    pub(crate) own: ReceiverSettleMode,
}

impl Settles {
    pub(crate) fn settles(self, mode: Option<ReceiverSettleMode>) -> bool
        ensures { result ≡ DispositionFrames.is_settled_by self.given self.own mode }
    {
        match self.given {
            Some(settled) => settled,
            None => mode.unwrap_or(self.own) == ReceiverSettleMode::First,
        }
    }
}

impl Deliveries {
    // Drops what is kept of those of the deliveries that are settled so.
    pub(crate) fn remove_settled(&mut self, how: Settles, infos: &[DeliveryInfo])
        ensures entries { self.new.entries
            ≡ without_entries self.old.entries (settled_tags how.given how.own infos.now) }
        ensures settled { self.new.settled ≡ self.old.settled }
    {
        for info in infos {
            if how.settles(info.rcv_settle_mode()) {
                self.remove(info.delivery_tag());
            }
        }
    }
}
