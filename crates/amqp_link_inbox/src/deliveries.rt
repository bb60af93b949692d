//! What an inbox keeps of all deliveries, with what its link states of them.
ghost use Rattle.std.specs.Prelude.{◌≡◌, ◌<◌, [], false, true, not, None, Some, length};
ghost use Rattle.std.specs.Prelude.{IfOk, option_copied};
ghost use Rattle.amqp_link_types.specs.Entries.{entry_at};
ghost use Rattle.amqp_link_receiver.specs.ReceiverDeliveries.{forgotten};
ghost use Rattle.amqp_link_types.specs.Entries.{without_entries};
ghost use Rattle.amqp_link_inbox.specs.InboxAttaches;
ghost use Rattle.amqp_link_inbox.specs.InboxAttaches.{kept_after, forgotten_tags, without_ids};
ghost use Rattle.amqp_link_inbox.specs.Storing;
ghost use Rattle.amqp_link_inbox.specs.Storing.{dropped, stage_at, stated};

mod receiving;
pub(crate) mod settling;
mod taking;

use crate::inbox::Forgotten;
use crate::kept::{Kept, Stage};
use crate::settled::Settled;
use amqp_link_endpoint::endpoint::target::LinkTarget;
use amqp_link_receiver::receiver_link::ReceiverLink;
use amqp_link_types::types::{Attach, DeliveryTag};
use indexmap::IndexMap;
use std::alloc::{AllocError, Global};
use std::marker::Model;

/// What is kept of each delivery by its tag, and the complete deliveries that are settled and were not taken.
#[derive(Drop)]
pub(crate) struct Deliveries {
    entries: IndexMap<DeliveryTag, Kept>,
    settled: Settled,
}

impl Model for Deliveries {
    ghost use Rattle.amqp_link_inbox.specs.Storing.{Store};

    ghost Value = { Store };

    ghost use Rattle.std.specs.Coded.{codes};
    ghost use Rattle.amqp_link_values.specs.contracts.fields.Fields as fields;

    ghost coded = { Prim.hlevel (codes, fields.the_row.coded) };

    ghost view = { λ deliveries. record {
      entries = deliveries.entries.entries;
      settled = deliveries.settled.list;
    } };
}

impl Deliveries {
    // Nothing is kept.
    pub(crate) fn new(alloc: Global) -> Deliveries
        ensures { result ≡ record { entries = []; settled = [] } }
    {
        Deliveries {
            entries: IndexMap::new(alloc),
            settled: Settled::new(alloc),
        }
    }

    // What is kept of the delivery with this tag.
    pub(crate) fn get(&self, tag: &DeliveryTag) -> Option<&Kept>
        ensures { option_copied result ≡ entry_at self.now.entries tag.now }
    {
        self.entries.get(tag)
    }

    // How many complete deliveries are settled and were not taken.
    pub(crate) fn settled_len(&self) -> usize
        ensures { result ≡ length self.now.settled }
    {
        self.settled.len()
    }

    // Drops what is kept of the delivery with this tag, and its entry at the link. How far it had come, if something was
    // kept of it.
    pub(crate) fn forget<T: LinkTarget>(
        &mut self,
        link: &mut ReceiverLink<T>,
        tag: &DeliveryTag,
    ) -> Option<Stage>
        ensures stage { result ≡ stage_at self.old.entries tag.now }
        ensures store { self.new ≡ dropped tag.now self.old }
        ensures link { link.new ≡ forgotten tag.now link.old }
    {
        link.on_aborted(tag);
        let kept = self.entries.swap_remove(tag)?;
        let stage = kept.stage();
        drop(kept);
        Some(stage)
    }

    // Drops what is kept of the delivery with this tag.
    pub(crate) fn remove(&mut self, tag: &DeliveryTag)
        ensures { self.new ≡ dropped tag.now self.old }
    {
        drop(self.entries.swap_remove(tag));
    }

    // Drops all that is kept by a tag, if the link is reattached.
    pub(crate) fn clear_if(&mut self, is_reattaching: bool)
        ensures entries { self.new.entries ≡ kept_after is_reattaching self.old.entries }
        ensures settled { self.new.settled ≡ self.old.settled }
    {
        if is_reattaching {
            self.entries.clear();
        }
    }

    // Drops what is kept of these deliveries, and their entries at the link.
    pub(crate) fn forget_all<T: LinkTarget>(
        &mut self,
        link: &mut ReceiverLink<T>,
        forgotten: &[Forgotten],
    )
        ensures entries { self.new.entries ≡ without_entries self.old.entries (forgotten_tags forgotten.now) }
        ensures settled { self.new.settled ≡ self.old.settled }
        ensures link { link.new ≡ record link.old {
          unsettled = without_entries link.old.unsettled (forgotten_tags forgotten.now);
        } }
    {
        for delivery in forgotten {
            self.forget(link, &delivery.tag);
        }
    }

    // No delivery has an id before its sender has resumed it.
    pub(crate) fn drop_ids(&mut self)
        ensures entries { self.new.entries ≡ without_ids self.old.entries }
        ensures settled { self.new.settled ≡ self.old.settled }
    {
        for index in 0..self.entries.len() {
            let Some(kept) = self.entries.get_index_mut(index) else {
                unreachable!()
            };
            kept.id = None;
        }
    }

    // The deliveries that the sender of this attach does not know.
    pub(crate) fn forgotten_by(
        &self,
        alloc: Global,
        attach: &Attach,
    ) -> Result<Vec<Forgotten>, AllocError>
        ensures { IfOk result (λ forgotten. forgotten.items ≡ InboxAttaches.forgotten_by attach.now self.now.entries) }
    {
        let mut forgotten = Vec::new(alloc);
        for (tag, kept) in &self.entries {
            if does_forget(attach, tag) {
                forgotten.push(Forgotten {
                    tag: tag.clone()?,
                    stage: kept.stage(),
                })?;
            }
        }
        Ok(forgotten)
    }
}

// Whether an attach says that the sender does not know the delivery with this tag.
fn does_forget(attach: &Attach, tag: &DeliveryTag) -> bool
    ensures { result ≡ InboxAttaches.forgets attach.now tag.now }
{
    if attach.incomplete_unsettled {
        return false;
    }
    match &attach.unsettled {
        Some(stated) => !stated.contains(tag),
        None => true,
    }
}
