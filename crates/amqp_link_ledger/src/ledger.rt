//! A sender's link endpoint that keeps what became of each of its registrations (2.6.12, 2.6.13).
//!
//! Each pair that enters the unsettled map is a registration, numbered from 0. A call has the name and the
//! results of the endpoint's call (`on_incoming_disposition` may be out of memory besides); one that changes the
//! map changes the registrations with it. What the registrations need is allocated before the endpoint is
//! called: a refused call makes no registration and resolves none.
ghost use Rattle.std.specs.Prelude.{◌≡◌, ◌≢◌, ◌<◌, [], map, slice_get, IfOk, IfErr, OnErr, OnOk};
ghost use Rattle.std.specs.Option.{option_map, option_copied};
ghost use Rattle.amqp_link_types.specs.Entries.{IsMap};
ghost use Rattle.amqp_link_sender.specs.Senders.{is_pending};
ghost use Rattle.amqp_link_ledger.specs.declared.fate.Fate.TheVariants.{Pending};
ghost use Rattle.amqp_link_ledger.specs.Fates.{IsFirstPending, IsRecorded, NonePending, with_released};

mod attach;
mod closing;
mod disposing;
mod entering;
mod incoming;
mod sending;

use crate::fate::{Fate, StillPending};
use crate::registrations::Registrations;
use amqp_link_endpoint::endpoint::LinkExt;
use amqp_link_endpoint::endpoint::either::{Access, EitherEnd};
use amqp_link_endpoint::endpoint::target::LinkTarget;
use amqp_link_endpoint::link_inner::LinkInner;
use amqp_link_sender::sender_link::SenderLink;
use amqp_link_state::role::SenderMarker;
use amqp_link_types::delivery::UnsettledMessage;
use amqp_link_types::types::DeliveryTag;
use amqp_link_types::types::unsettled_map::UnsettledMap;
use indexmap::map::Slice;
use std::alloc::{AllocError, Global};
use std::marker::Model;

/// A sender's link endpoint, with the fate of each delivery that was registered with it.
///
/// A contract sees the endpoint, and the list of the tags with their fates. The tags of the pending
/// registrations are distinct, and are exactly the keys of the endpoint's unsettled map.
///
/// The registrations are kept until they are released, so their memory grows with the number of those that are not. The
/// one of a tag is found by a hash, whatever that number is; room for one more is made as a `Vec` makes it: most often there
/// is some.
#[derive(Drop)]
pub struct OutcomeLedger<T: LinkTarget> {
    alloc: Global,
    link: SenderLink<T>,
    registrations: Registrations,
}

impl<T: LinkTarget> Model for OutcomeLedger<T> {
    ghost use Rattle.std.specs.Coded.{codes};
    ghost use Rattle.amqp_link_values.specs.contracts.fields.Fields as fields;
    ghost use Rattle.amqp_link_ledger.specs.Fates.{IsRecorded};
    ghost use Rattle.amqp_link_ledger.specs.Ledgers.{Ledger};

    ghost Value = { Ledger T };

    ghost coded = { Prim.hlevel (codes, fields.the_row.coded) };

    ghost view = { λ ledger. record {
      link = ledger.link;
      records = ledger.registrations.records;
    } };

    ghost invariant = { λ ledger. IsRecorded ledger.link.unsettled ledger.registrations.records };
}

// Registers each of these tags, which are distinct, in their order. Does not allocate if there are none.
fn registrations_of<V>(
    alloc: Global,
    pairs: Slice<'_, DeliveryTag, V>,
) -> Result<Registrations, AllocError>
    requires { IsMap pairs }
    ensures records { IfOk result (λ all. all.records ≡ map (λ entry. (entry.0, Pending)) pairs.entry) }
    ensures recorded { IfOk result (λ all. IsRecorded pairs.entry all.records) }
    ensures memory { OnErr result (pairs.entry ≢ []) }
{
    let mut all = Registrations::new(alloc);
    for (tag, _) in pairs {
        let reserved = match all.reserve(alloc, tag.as_bytes()) {
            Ok(reserved) => reserved,
            Err(refused) => {
                drop(all);
                return Err(refused);
            }
        };
        all.register(reserved);
    }
    Ok(all)
}

// The calls that both roles share reach what the ledger's endpoint holds. None of them changes the unsettled deliveries,
// so the registrations stay.
impl<T: LinkTarget> EitherEnd for OutcomeLedger<T> {
    ghost use Rattle.std.specs.Prelude.{refl};
    ghost use Rattle.amqp_link_endpoint.specs.Links.{inner_of, with_inner};

    type Marker = SenderMarker;

    type Target = T;

    ghost inner = { λ ledger. inner_of ledger.link };

    ghost with_inner = { λ ledger i. record ledger { link = with_inner ledger.link i } };

    ghost kept = { λ ledger. ledger.link.unsettled };

    ghost at_rest = { λ ledger. ledger };

    ghost apart = { λ ledger i. (refl, refl, refl, refl) };

    fn inner(&self, access: Access) -> &LinkInner<SenderMarker, T> {
        self.link.inner(access)
    }

    fn inner_mut(&mut self, access: Access) -> &mut LinkInner<SenderMarker, T> {
        self.link.inner_mut(access)
    }

    fn kept(&self, access: Access) -> &UnsettledMap<UnsettledMessage> {
        self.link.kept(access)
    }

    fn rest(&mut self, _: Access) {}
}

impl<T: LinkTarget> OutcomeLedger<T> {
    /// A ledger of this endpoint. Each delivery in its unsettled map is registered as pending, in the order
    /// of the map.
    ///
    /// Refused only if it is out of memory, which returns the endpoint. Of an endpoint without unsettled
    /// deliveries it does not allocate.
    pub fn new(alloc: Global, link: SenderLink<T>) -> Result<OutcomeLedger<T>, SenderLink<T>>
        ensures link { IfOk result (λ ledger. ledger.link ≡ link) }
        ensures records { IfOk result (λ ledger.
            ledger.records ≡ map (λ entry. (entry.0, Pending)) link.unsettled) }
        ensures memory { OnErr result (link.unsettled ≢ []) }
        ensures back { IfErr result (λ back. back ≡ link) }
    {
        let _distinct = link.unsettled().len();
        let Ok(registrations) = registrations_of(alloc, link.unsettled().as_slice()) else {
            return Err(link);
        };
        Ok(OutcomeLedger {
            alloc,
            link,
            registrations,
        })
    }

    /// A reference to the endpoint.
    pub fn link(&self) -> &SenderLink<T>
        ensures { result.now ≡ self.now.link }
    {
        &self.link
    }

    /// The endpoint itself. The fates of its registrations are dropped. Does not allocate.
    pub fn into_link(self) -> SenderLink<T>
        ensures { result ≡ self.link }
    {
        self.link
    }

    /// What became of registration `number`; `None` exactly past the last number. Of one that is released it is `Released`.
    pub fn fate(&self, number: usize) -> Option<&Fate>
        ensures fate { option_copied result
            ≡ option_map (λ entry. entry.1) (slice_get self.now.records number) }
        ensures recorded { IsRecorded self.now.link.unsettled self.now.records }
    {
        self.registrations.fate(number)
    }

    /// Releases what became of the registrations below this number: of none of them the tag or the outcome is kept, and
    /// their memory is used again. The numbers go on: the next registration has the number that it would have had. Below
    /// any number past the last are all. Does not allocate.
    ///
    /// Refused, with nothing changed, if one of them is pending: it says which is the first.
    ///
    /// Its cost grows with the number of those that are released.
    pub fn release(&mut self, before: usize) -> Result<(), StillPending>
        ensures link { self.new.link ≡ self.old.link }
        ensures released { OnOk result (self.new.records ≡ with_released before self.old.records) }
        ensures ended { OnOk result (NonePending before self.old.records) }
        ensures refused { IfErr result (λ still. (still.0 < before) × IsFirstPending still.0 self.old.records) }
        ensures left { OnErr result (self.new ≡ self.old) }
    {
        self.registrations.release(before)
    }

    // Whether the delivery of a tag is pending.
    fn is_pending(&self, tag: &DeliveryTag) -> bool
        ensures { result ≡ is_pending self.now.link tag.now }
    {
        self.registrations.is_pending(tag)
    }
}
