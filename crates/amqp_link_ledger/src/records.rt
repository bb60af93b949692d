//! The records of all registrations by number, of which the first may be released.
ghost use Rattle.std.specs.Prelude.{◌≡◌, ◌<◌, [], false, true, IfNone, IfSome, IsSomeAnd, IsTrue, OnOk, length, slice_get, slice_set};
ghost use Rattle.std.specs.Option.{option_copied, option_map};
ghost use Rattle.amqp_link_types.specs.Entries.{Tag};
ghost use Rattle.amqp_link_ledger.specs.Fates.{IsFirstPending, NonePending, is_pending_fate, registered, with_released};
ghost use Rattle.amqp_link_ledger.specs.declared.fate.Fate.{Fate as TheFate};

use crate::fate::Fate;
use amqp_link_types::types::DeliveryTag;
use std::alloc::{AllocError, Global};
use std::collections::VecDeque;
use std::marker::Model;
use std::mem;

/// The tag and the fate of each registration, by its number. Those that are released are a count.
///
/// A contract sees the whole list, and whether there is room for one more.
#[derive(Drop)]
pub(crate) struct RecordList {
    released: usize,
    kept: VecDeque<(DeliveryTag, Fate)>,
    gone: Fate, // what is lent for the fate of a released one
}

impl Model for RecordList {
    ghost use Rattle.std.specs.Coded.{codes};
    ghost use Rattle.std.specs.Prelude.{◌≡◌, ◌+◌, ◌<◌, ◌^◌};
    ghost use Rattle.std.specs.VecDeque.{deque_capacity, deque_len};
    ghost use Rattle.amqp_link_values.specs.contracts.fields.Fields as fields;
    ghost use Rattle.amqp_link_ledger.specs.Fates.{RecordsAndRoom, after_gone, is_room_for_one};
    ghost use Rattle.amqp_link_ledger.specs.declared.fate.Fate.TheVariants.{Released};

    ghost Value = { RecordsAndRoom };

    ghost coded = { Prim.hlevel (codes, fields.the_row.coded) };

    ghost view = { λ all. record {
      records = after_gone all.released all.kept.items;
      has_room = is_room_for_one all.released (deque_len all.kept) (deque_capacity all.kept);
    } };

    ghost invariant = { λ all. (all.released + deque_len all.kept < 2 ^ 64) × (all.gone ≡ Released) };
}

fn is_pending(fate: &Fate) -> bool
    ensures { result ≡ is_pending_fate fate.now }
{
    matches!(fate, Fate::Pending)
}

impl RecordList {
    // No records.
    pub(crate) fn new(alloc: Global) -> RecordList
        ensures { result.records ≡ [] }
    {
        RecordList {
            released: 0,
            kept: VecDeque::new(alloc),
            gone: Fate::Released,
        }
    }

    // How many there are, those that are released among them.
    pub(crate) fn len(&self) -> usize
        ensures { result ≡ length self.now.records }
    {
        self.released + self.kept.len()
    }

    // The fate of this registration.
    pub(crate) fn fate(&self, number: usize) -> Option<&Fate>
        ensures { option_copied result ≡ option_map (λ entry. entry.1) (slice_get self.now.records number) }
    {
        if number < self.released {
            return Some(&self.gone);
        }
        let record = self.kept.get(number - self.released)?;
        Some(&record.1)
    }

    // Makes room for one more. Refused if it is out of memory, or if 2^64 - 1 numbers are given.
    pub(crate) fn reserve(&mut self) -> Result<(), AllocError>
        ensures records { self.new.records ≡ self.old.records }
        ensures room { OnOk result (IsTrue self.new.has_room) }
        ensures stays { IsTrue self.old.has_room → IsTrue self.new.has_room }
    {
        if self.len() == usize::MAX {
            return Err(AllocError);
        }
        self.kept.reserve(1)
    }

    // Adds a pending registration, if there is room.
    pub(crate) fn push_pending(&mut self, tag: DeliveryTag)
        requires { IsTrue self.old.has_room }
        ensures { self.new.records ≡ registered tag self.old.records }
    {
        self.kept.push_back_reserved((tag, Fate::Pending));
    }

    // Gives a pending registration its fate.
    pub(crate) fn set_fate(&mut self, number: usize, fate: Fate)
        requires { IsSomeAnd (slice_get self.old.records number) (λ r. is_pending_fate r.1 ≡ true) }
        ensures records { (tag : Tag) (old : TheFate) → slice_get self.old.records number ≡ Some (tag, old)
            → self.new.records ≡ slice_set self.old.records number (tag, fate) }
        ensures room { self.new.has_room ≡ self.old.has_room }
    {
        let record = &mut self.kept[number - self.released];
        drop(mem::replace(&mut record.1, fate));
    }

    // The number of the first pending registration, if it is below this one.
    pub(crate) fn first_pending(&self, before: usize) -> Option<usize>
        ensures found { IfSome result (λ number. (number < before) × IsFirstPending number self.now.records) }
        ensures none { IfNone result (NonePending before self.now.records) }
    {
        for number in self.released..before {
            let Some((_, fate)) = self.kept.get(number - self.released) else {
                return None;
            };
            if is_pending(fate) {
                return Some(number);
            }
        }
        None
    }

    // Releases those below this number.
    pub(crate) fn release(&mut self, before: usize)
        ensures records { self.new.records ≡ with_released before self.old.records }
        ensures room { IsTrue self.old.has_room → IsTrue self.new.has_room }
    {
        if before <= self.released {
            return;
        }
        for _ in self.released..before {
            let Some(record) = self.kept.pop_front() else {
                return;
            };
            drop(record);
            self.released += 1;
        }
    }
}
