//! How far each delivery of a pair has come, by tag.
//!
//! The map is hashed, so that what an arrival costs does not grow with the number of deliveries.
ghost use Rattle.std.specs.Prelude.{◌≡◌, [], None, Some, true, false, is_none, is_some, IfOk, IfErr, IsSome, OnOk, OnErr};
ghost use Rattle.std.specs.Option.{option_copied, option_map_or};
ghost use Rattle.amqp_link_types.specs.Entries.{Entries, entry_at, with_entry, without_entry};
ghost use Rattle.amqp_link_pair.specs.HandingOut.{held_in};
ghost use Rattle.amqp_link_pair.specs.Keeping.{just_sent, marked, withdrawn_of};

mod handing_out;
mod receiving;

use amqp_link_types::types::DeliveryTag;
use amqp_link_worlds::progress::Progress;
use indexmap::IndexMap;
use std::alloc::{AllocError, Global};
use std::marker::Model;
use std::mem;

/// What a pair keeps of a delivery.
#[derive(Drop)]
pub(crate) struct Kept {
    /// How far it has come.
    pub progress: Progress,
    /// Whether transfers of it are under way. A cut does not reset this: each delivery is resumed or put back
    /// before it is read again.
    pub is_under_way: bool,
}

/// What is kept of each delivery, by tag.
///
/// A contract sees the list of the pairs.
#[derive(Drop)]
pub(crate) struct Deliveries {
    entries: IndexMap<DeliveryTag, Kept>,
}

impl Model for Deliveries {
    ghost use Rattle.std.specs.Coded.{codes};
    ghost use Rattle.amqp_link_types.specs.Entries.{Entries};
    ghost use Rattle.amqp_link_values.specs.contracts.fields.Fields as fields;
    ghost use Rattle.amqp_link_pair.specs.declared.deliveries.Kept.{Kept as TheKept};

    ghost Value = { Entries TheKept };

    ghost coded = { Prim.hlevel (codes, fields.the_row.coded) };

    ghost view = { λ deliveries. deliveries.entries.entries };
}

// A delivery that is sent: nothing of it has arrived.
fn new_delivery() -> Kept
    ensures { result ≡ just_sent }
{
    Kept {
        progress: Progress {
            held: None,
            whole: false,
            put_back: false,
            taken: false,
            withdrawn: false,
        },
        is_under_way: true,
    }
}

impl Deliveries {
    // No deliveries.
    pub(crate) fn new(alloc: Global) -> Deliveries
        ensures { result ≡ [] }
    {
        Deliveries {
            entries: IndexMap::new(alloc),
        }
    }

    // What is kept of a delivery.
    pub(crate) fn get(&self, tag: &DeliveryTag) -> Option<&Kept>
        ensures { option_copied result ≡ entry_at self.now tag.now }
    {
        self.entries.get(tag)
    }

    // Whether the last transfer of a delivery has arrived.
    pub(crate) fn is_whole(&self, tag: &DeliveryTag) -> bool
        ensures { result ≡ option_map_or (λ kept. kept.progress.whole) (entry_at self.now tag.now) false }
    {
        match self.entries.get(tag) {
            Some(kept) => kept.progress.whole,
            None => false,
        }
    }

    // Whether something is kept of the delivery with this tag.
    pub(crate) fn contains(&self, tag: &[u8]) -> bool
        ensures { result ≡ is_some (entry_at self.now tag.now) }
    {
        self.entries.contains_key(tag)
    }

    // Adds a delivery that is sent, unless there is one of the tag: then nothing changes. Whether it was added.
    pub(crate) fn add(&mut self, tag: &DeliveryTag) -> Result<bool, AllocError>
        ensures answer { IfOk result (λ is_new. is_new ≡ is_none (entry_at self.old tag.now)) }
        ensures added { IfOk result (λ is_new. is_new ≡ true
            → self.new ≡ with_entry self.old tag.now just_sent) }
        ensures present { IfOk result (λ is_new. is_new ≡ false → self.new ≡ self.old) }
        ensures left { OnErr result (self.new ≡ self.old) }
    {
        let own = tag.clone()?;
        match self.entries.insert(own, new_delivery())? {
            None => Ok(true),
            Some(before) => {
                self.set(tag, before);
                Ok(false)
            }
        }
    }

    // Removes a delivery. The last pair moves into the gap.
    pub(crate) fn remove(&mut self, tag: &DeliveryTag)
        ensures { self.new ≡ without_entry self.old tag.now }
    {
        drop(self.entries.swap_remove(tag));
    }

    // Removes the delivery that was added last, under a tag that was free.
    pub(crate) fn take_back(&mut self, tag: &DeliveryTag)
        ensures { (old : Entries Kept) → entry_at old tag.now ≡ None
            → self.old ≡ with_entry old tag.now just_sent → self.new ≡ old }
    {
        self.remove(tag);
    }

    // Sets what is kept of a delivery that is there.
    fn set(&mut self, tag: &DeliveryTag, kept: Kept)
        requires { IsSome (entry_at self.old tag.now) }
        ensures { self.new ≡ with_entry self.old tag.now kept }
    {
        let Some(place) = self.entries.get_mut(tag) else {
            unreachable!()
        };
        drop(mem::replace(place, kept));
    }

    // Whether something of the delivery with this tag has arrived.
    fn is_held(&self, tag: &DeliveryTag) -> bool
        ensures { result ≡ is_some (held_in (entry_at self.now tag.now)) }
    {
        match self.entries.get(tag) {
            Some(kept) => kept.progress.held.is_some(),
            None => false,
        }
    }

    // Marks a delivery that is there as withdrawn, or removes it if nothing of it has arrived.
    pub(crate) fn withdraw_kept(&mut self, tag: &DeliveryTag)
        requires { IsSome (entry_at self.old tag.now) }
        ensures none_held { is_some (held_in (entry_at self.old tag.now)) ≡ false
            → self.new ≡ without_entry self.old tag.now }
        ensures some_held { (kept : Kept) → is_some (held_in (entry_at self.old tag.now)) ≡ true
            → entry_at self.old tag.now ≡ Some kept → self.new ≡ with_entry self.old tag.now (withdrawn_of kept) }
    {
        if self.is_held(tag) {
            self.mark_withdrawn(tag);
        } else {
            self.remove(tag);
        }
    }

    // Marks a delivery that is there as withdrawn.
    fn mark_withdrawn(&mut self, tag: &DeliveryTag)
        requires { IsSome (entry_at self.old tag.now) }
        ensures { (kept : Kept) → entry_at self.old tag.now ≡ Some kept
            → self.new ≡ with_entry self.old tag.now (withdrawn_of kept) }
    {
        let Some(kept) = self.entries.get_mut(tag) else {
            unreachable!()
        };
        kept.progress.withdrawn = true;
    }

    // Sets, for a delivery that is there, whether its entry was put back unsent or its transfers are under
    // way.
    pub(crate) fn mark(&mut self, tag: &DeliveryTag, is_put_back: bool)
        requires { IsSome (entry_at self.old tag.now) }
        ensures { (kept : Kept) → entry_at self.old tag.now ≡ Some kept
            → self.new ≡ with_entry self.old tag.now (marked is_put_back kept) }
    {
        let Some(kept) = self.entries.get_mut(tag) else {
            unreachable!()
        };
        kept.progress.put_back = is_put_back;
        kept.is_under_way = !is_put_back;
    }
}
