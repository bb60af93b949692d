//! The registrations of a sender's unsettled deliveries, by number.
ghost use Rattle.std.specs.Prelude.{◌≡◌, ◌==◌, [], ◌∷◌, if◌then◌else◌, map, length, slice_get, false};
ghost use Rattle.std.specs.Prelude.{◌<◌, All, IsTrue, IfErr, IfOk, OnErr, OnOk, Err};
ghost use Rattle.std.specs.Option.{option_map, option_copied};
ghost use Rattle.amqp_link_ledger.specs.Fates.{Change, IsFirstPending, NonePending, after, is_pending_fate, pending_count, with_fates, with_released};

use crate::fate::{Fate, StillPending};
use crate::numbers::{has_number, put_number, take_number};
use crate::records::RecordList;
use amqp_link_core::resumption::ResumingDelivery;
use amqp_link_types::delivery::DeliveryOutcome;
use amqp_link_types::types::{DeliveryTag, LinkStateError};
use indexmap::IndexMap;
use std::alloc::{AllocError, Global};
use std::marker::Model;

/// What one registration needs, allocated before it is made: two copies of its tag.
///
/// A contract sees the tag. `Registrations::reserve` makes it, and `Registrations::register` takes it.
#[derive(Debug, Drop)]
pub struct Reserved {
    key: DeliveryTag,
    tag: DeliveryTag,
}

impl Model for Reserved {
    ghost use Rattle.std.specs.Prelude.{◌≡◌, ℕ, List};

    ghost Value = { List ℕ };

    ghost view = { λ reserved. reserved.tag };

    ghost invariant = { λ reserved. reserved.key ≡ reserved.tag };
}

/// The registrations of a sender's unsettled deliveries. They are numbered from 0; each keeps its
/// number and its tag, and its fate changes at most once.
///
/// A contract sees the list of the tags with their fates, and whether there is room for the next
/// registration. The memory grows with the number of the registrations that are not released. A call finds the pending
/// registration of a tag by a hash, whatever that number is; room is made as a `Vec` makes it.
#[derive(Drop)]
pub struct Registrations {
    records: RecordList,
    numbers: IndexMap<DeliveryTag, usize>,
}

impl Model for Registrations {
    ghost use Rattle.std.specs.Coded.{codes};
    ghost use Rattle.std.specs.Prelude.{◌&&◌, nat_lt};
    ghost use Rattle.indexmap.specs.IndexMap.{spare};
    ghost use Rattle.amqp_link_values.specs.contracts.fields.Fields as fields;
    ghost use Rattle.amqp_link_ledger.specs.Fates.{IsNumbered, RecordsAndRoom};

    ghost Value = { RecordsAndRoom };

    ghost coded = { Prim.hlevel (codes, fields.the_row.coded) };

    ghost view = { λ all. record {
      records = all.records.records;
      has_room = all.records.has_room && nat_lt 0 (spare all.numbers);
    } };

    ghost invariant = { λ all. IsNumbered all.records.records all.numbers.entries };
}

impl Registrations {
    /// No registrations. Does not allocate.
    pub fn new(alloc: Global) -> Self
        ensures { result.records ≡ [] }
    {
        Registrations {
            records: RecordList::new(alloc),
            numbers: IndexMap::new(alloc),
        }
    }

    /// How many registrations there are, whatever their fates.
    pub fn len(&self) -> usize
        ensures { result ≡ length self.now.records }
    {
        self.records.len()
    }

    /// Whether there are none.
    pub fn is_empty(&self) -> bool
        ensures { result ≡ (length self.now.records == 0) }
    {
        self.len() == 0
    }

    /// What became of registration `number`; `None` exactly past the last number.
    pub fn fate(&self, number: usize) -> Option<&Fate>
        ensures { option_copied result ≡ option_map (λ entry. entry.1) (slice_get self.now.records number) }
    {
        self.records.fate(number)
    }

    /// Whether a registration of the tag is pending. At most one is.
    pub fn is_pending(&self, tag: &DeliveryTag) -> bool
        ensures { pending_count tag.now self.now.records ≡ (if result then 1 else 0) }
    {
        has_number(&self.numbers, tag)
    }

    /// Allocates all that a registration of this tag needs: room, and two copies of a long tag. Refused only if
    /// it is out of memory. Changes no registration in either case.
    pub fn reserve(&mut self, alloc: Global, tag: &[u8]) -> Result<Reserved, AllocError>
        ensures tag { IfOk result (λ reserved. reserved ≡ tag.now) }
        ensures room { OnOk result (IsTrue self.new.has_room) }
        ensures records { self.new.records ≡ self.old.records }
        ensures stays { IsTrue self.old.has_room → IsTrue self.new.has_room }
    {
        let key = DeliveryTag::copied(alloc, tag)?;
        let tag = DeliveryTag::copied(alloc, tag)?;
        self.records.reserve()?;
        self.numbers.reserve(1)?;
        Ok(Reserved { key, tag })
    }

    /// Registers the tag under the next number, which is `len` before the call. Does not allocate.
    ///
    /// There is room once `reserve` has returned `Ok`, until the next `register`. The tag is free if
    /// `is_pending` returns false.
    pub fn register(&mut self, reserved: Reserved)
        requires room { IsTrue self.old.has_room }
        requires free { pending_count reserved self.old.records ≡ 0 }
        ensures { self.new.records ≡ after (Change.Enters reserved) self.old.records }
    {
        let Reserved { key, tag } = reserved;
        let number = self.records.len();
        put_number(&mut self.numbers, key, number);
        self.records.push_pending(tag);
    }

    /// Withdraws the pending registration of the tag, if there is one. Does not allocate.
    pub fn withdraw(&mut self, tag: &DeliveryTag)
        ensures records { self.new.records ≡ after (Change.Withdraws tag.now) self.old.records }
        ensures room { IsTrue self.old.has_room → IsTrue self.new.has_room }
    {
        self.end(tag, Fate::Withdrawn);
    }

    /// Hands out the pending registrations of these tags. The list may have deliveries that only the receiver
    /// knows: a tag that is not pending changes nothing. Does not allocate.
    pub fn hand_out(&mut self, list: &[(DeliveryTag, ResumingDelivery)])
        ensures records { self.new.records ≡ after (Change.HandsOut list.now) self.old.records }
        ensures room { IsTrue self.old.has_room → IsTrue self.new.has_room }
    {
        for (tag, _) in list {
            self.end(tag, Fate::HandedOut);
        }
    }

    /// Resolves the pending registration of the tag with this outcome, if there is one. Does not
    /// allocate.
    pub fn resolve(&mut self, tag: &DeliveryTag, outcome: DeliveryOutcome)
        ensures records { self.new.records
            ≡ after (Change.Resolves ((tag.now, outcome) ∷ [])) self.old.records }
        ensures room { IsTrue self.old.has_room → IsTrue self.new.has_room }
    {
        self.end(tag, Fate::Resolved(outcome));
    }

    /// Resolves the pending registrations of these tags with their outcomes: `copies` has one for each, in
    /// order. A tag that is not pending changes nothing. Does not allocate.
    pub fn resolve_all(
        &mut self,
        ended: &[(DeliveryTag, DeliveryOutcome)],
        copies: Vec<DeliveryOutcome>,
    )
        requires { copies.items ≡ map (λ e. e.1) ended.now }
        ensures records { self.new.records ≡ after (Change.Resolves ended.now) self.old.records }
        ensures room { IsTrue self.old.has_room → IsTrue self.new.has_room }
    {
        let mut outcomes = copies.into_iter();
        for (tag, _) in ended {
            let Some(outcome) = outcomes.next() else {
                return;
            };
            self.end(tag, Fate::Resolved(outcome));
        }
    }

    /// Resolves the pending registrations of these tags, where every outcome is
    /// `LinkStateError::IllegalState`, so that no copies are needed. A tag that is not pending changes
    /// nothing. Does not allocate.
    pub fn resolve_illegal(&mut self, ended: &[(DeliveryTag, DeliveryOutcome)])
        requires { All (λ e. e.1 ≡ Err LinkStateError.IllegalState) ended.now }
        ensures records { self.new.records ≡ after (Change.Resolves ended.now) self.old.records }
        ensures room { IsTrue self.old.has_room → IsTrue self.new.has_room }
    {
        for (tag, _) in ended {
            self.end(tag, Fate::Resolved(Err(LinkStateError::IllegalState)));
        }
    }

    /// Releases the registrations below this number: of none of them the tag or the outcome is kept, and their memory is
    /// used again. The numbers go on. Does not allocate.
    ///
    /// Refused, with nothing changed, if one of them is pending.
    pub fn release(&mut self, before: usize) -> Result<(), StillPending>
        ensures released { OnOk result (self.new.records ≡ with_released before self.old.records) }
        ensures ended { OnOk result (NonePending before self.old.records) }
        ensures refused { IfErr result (λ still. (still.0 < before) × IsFirstPending still.0 self.old.records) }
        ensures left { OnErr result (self.new ≡ self.old) }
        ensures room { IsTrue self.old.has_room → IsTrue self.new.has_room }
    {
        if let Some(number) = self.records.first_pending(before) {
            return Err(StillPending(number));
        }
        self.records.release(before);
        Ok(())
    }

    // Gives the pending registration of the tag its last fate, if there is one.
    fn end(&mut self, tag: &DeliveryTag, fate: Fate)
        requires { is_pending_fate fate ≡ false }
        ensures records { self.new.records ≡ with_fates ((tag.now, fate) ∷ []) self.old.records }
        ensures room { IsTrue self.old.has_room → IsTrue self.new.has_room }
    {
        match take_number(&mut self.numbers, tag) {
            Some(number) => self.records.set_fate(number, fate),
            None => drop(fate),
        }
    }
}
