//! The map of the unsettled deliveries (2.6.13).
//!
//! Contracts see the list of its pairs: a put replaces in place or adds last, a removal moves the last pair
//! into the gap. A delivery is found by a hash of its tag.

ghost use Rattle.std.specs.Prelude.{◌≡◌, ◌+◌, ◌==◌, ◌∷◌, [], length, slice_get, take, is_some, None, Option, Some};
ghost use Rattle.std.specs.Prelude.{◌<◌, false, IfOk, IfErr, IfSome, IfNone, OnOk, OnErr};
ghost use Rattle.std.specs.Map.Iter.{deref_pair};
ghost use Rattle.std.specs.Option.{option_map, option_copied, option_to_list};
ghost use Rattle.std.specs.Str.{bytes_eq};
ghost use Rattle.amqp_link_values.specs.Copies.{carries_any};
ghost use Rattle.amqp_link_types.specs.Entries.{entry_at, with_entry, without_entry, changed_at, IsMap};
ghost use Rattle.amqp_link_types.specs.Unsettled.{states_of};

use crate::delivery::UnsettledMessage;
use crate::types::delivery_state::DeliveryState;
use amqp_link_values::delivery_tag::DeliveryTag;
use indexmap::IndexMap;
use indexmap::map::Slice;
use std::alloc::{AllocError, AllocFailed, Global};
use std::marker::Model;
use std::mem;

/// What an endpoint keeps of its unsettled deliveries, by tag (2.6.13).
///
/// A contract sees the list of the pairs, whose tags are distinct.
#[derive(Debug, Drop)]
pub struct UnsettledMap<V> {
    map: IndexMap<DeliveryTag, V>,
}

impl<V> Model for UnsettledMap<V> {
    ghost use Rattle.amqp_link_types.specs.Entries.{Entries};

    ghost Value = { Entries V };

    ghost view = { λ map. map.map.entries };
}

impl<V> UnsettledMap<V> {
    /// No deliveries. Does not allocate.
    pub fn new(alloc: Global) -> Self
        ensures { result ≡ [] }
    {
        UnsettledMap {
            map: IndexMap::new(alloc),
        }
    }

    /// How many deliveries there are.
    pub fn len(&self) -> usize
        ensures len { result ≡ length self.now }
        ensures distinct { IsMap self.now }
    {
        self.map.len()
    }

    /// Whether there are none.
    pub fn is_empty(&self) -> bool
        ensures { result ≡ (length self.now == 0) }
    {
        self.len() == 0
    }

    /// The map by tag, as the library `indexmap` has it.
    pub fn as_map(&self) -> &IndexMap<DeliveryTag, V>
        ensures { result.now.entries ≡ self.now }
    {
        &self.map
    }

    /// The entry of a delivery.
    pub fn get(&self, tag: &DeliveryTag) -> Option<&V>
        ensures { option_copied result ≡ entry_at self.now tag.now }
    {
        self.map.get(tag)
    }

    /// Whether the delivery is there.
    pub fn contains(&self, tag: &DeliveryTag) -> bool
        ensures { result ≡ is_some (entry_at self.now tag.now) }
    {
        self.map.contains_key(tag)
    }

    /// Whether the delivery whose tag has these bytes is there. Does not allocate.
    pub fn contains_bytes(&self, tag: &[u8]) -> bool
        ensures { result ≡ is_some (entry_at self.now tag.now) }
    {
        self.map.contains_key(tag)
    }

    /// The place of a delivery in the order of the map, and its entry. Does not allocate.
    pub fn get_full(&self, tag: &DeliveryTag) -> Option<(usize, &V)>
        ensures found { IfSome result (λ found. slice_get self.now found.0 ≡ Some (tag.now, found.1.now)) }
        ensures missing { IfNone result (entry_at self.now tag.now ≡ None) }
    {
        let (index, _, value) = self.map.get_full(tag)?;
        Some((index, value))
    }

    /// The pair at a place in the order of the map.
    pub fn pair_at(&self, index: usize) -> Option<(&DeliveryTag, &V)>
        ensures { option_map deref_pair result ≡ slice_get self.now index }
    {
        self.map.get_index(index)
    }

    /// The pairs in order.
    pub fn pairs(&self) -> Slice<'_, DeliveryTag, V>
        ensures { result ≡ self.now }
    {
        self.map.as_slice()
    }

    /// The map by tag, as the library `indexmap` has it, without this one. Does not allocate.
    pub fn into_map(self) -> IndexMap<DeliveryTag, V>
        ensures { result.entries ≡ self }
    {
        let UnsettledMap { map } = self;
        map
    }

    /// Removes all deliveries and returns them. Does not allocate.
    pub fn take_all(&mut self) -> Self
        ensures taken { result ≡ self.old }
        ensures empty { self.new ≡ [] }
    {
        let none = IndexMap::new(*self.map.allocator());
        UnsettledMap {
            map: mem::replace(&mut self.map, none),
        }
    }

    /// Puts the entry of a delivery: in the place of the one that is there, which is returned, or last.
    ///
    /// If it is out of memory, nothing has changed and both are returned; replacing an entry does not
    /// allocate.
    pub fn put(
        &mut self,
        tag: DeliveryTag,
        value: V,
    ) -> Result<Option<V>, AllocFailed<(DeliveryTag, V)>>
        ensures old { IfOk result (λ old. old ≡ entry_at self.old tag) }
        ensures put { OnOk result (self.new ≡ with_entry self.old tag value) }
        ensures back { IfErr result (λ failed. failed.value ≡ (tag, value)) }
        ensures left { OnErr result (self.new ≡ self.old) }
        ensures absent { OnErr result (entry_at self.old tag ≡ None) }
    {
        self.map.insert(tag, value)
    }

    /// Removes a delivery and returns its entry. The last pair moves into the gap. Does not allocate.
    pub fn remove(&mut self, tag: &DeliveryTag) -> Option<V>
        ensures value { result ≡ entry_at self.old tag.now }
        ensures removed { self.new ≡ without_entry self.old tag.now }
    {
        self.map.swap_remove(tag)
    }

    /// Removes a delivery and returns it with its tag. The last pair moves into the gap. Does not allocate.
    pub fn remove_entry(&mut self, tag: &DeliveryTag) -> Option<(DeliveryTag, V)>
        ensures entry { result ≡ option_map (λ value. (tag.now, value)) (entry_at self.old tag.now) }
        ensures removed { self.new ≡ without_entry self.old tag.now }
        ensures len { length self.new + length (option_to_list result) ≡ length self.old }
    {
        self.map.swap_remove_entry(tag)
    }

    /// Replaces the entry of a delivery that is there, and returns the one before; if the delivery is not
    /// there, the value is returned as an error. Does not allocate.
    pub fn replace(&mut self, tag: &DeliveryTag, value: V) -> Result<V, V>
        ensures old { IfOk result (λ old. entry_at self.old tag.now ≡ Some old) }
        ensures put { OnOk result (self.new ≡ with_entry self.old tag.now value) }
        ensures back { IfErr result (λ back. back ≡ value) }
        ensures absent { OnErr result (entry_at self.old tag.now ≡ None) }
        ensures left { OnErr result (self.new ≡ self.old) }
    {
        let Some(place) = self.map.get_mut(tag) else {
            return Err(value);
        };
        Ok(mem::replace(place, value))
    }

    /// Keeps the first `count` deliveries in their order and drops the others; if there are not more than
    /// that, it keeps all. Does not allocate.
    ///
    /// An attach that does not fit its frame is sent with the first half of its entries, the first quarter, and so
    /// on.
    pub fn truncate(&mut self, count: usize)
    where
        V: Drop,
        ensures { self.new ≡ take count self.old }
    {
        self.map.truncate(count);
    }
}

/// What an endpoint keeps of an unsettled delivery, with its state in it.
pub trait KeepsState {
    ghost use Rattle.amqp_link_types.specs.declared.types.delivery_state.DeliveryState.{DeliveryState};

    /// The same with another state, or with none.
    ghost with_state: { Self → Option DeliveryState → Self };

    /// Sets the state of the delivery, or that none is known. Does not allocate.
    fn set_state(&mut self, state: Option<DeliveryState>)
        ensures { self.new ≡ with_state self.old state };
}

impl KeepsState for UnsettledMessage {
    ghost with_state = { λ message state. record message { state = state } };

    fn set_state(&mut self, state: Option<DeliveryState>) {
        self.state = state;
    }
}

impl KeepsState for Option<DeliveryState> {
    ghost with_state = { λ _ state. state };

    fn set_state(&mut self, state: Option<DeliveryState>) {
        *self = state;
    }
}

impl<V: KeepsState> UnsettledMap<V> {
    /// Sets the state of a delivery, in its place; a delivery that is not there gets no entry. Does not
    /// allocate.
    pub fn set_state(&mut self, tag: &DeliveryTag, state: Option<DeliveryState>)
        ensures { self.new ≡ changed_at (λ value. V.with_state value state) (tag.now ∷ []) self.old }
    {
        let Some(place) = self.map.get_mut(tag) else {
            drop(state);
            return;
        };
        place.set_state(state);
    }
}

impl UnsettledMap<UnsettledMessage> {
    /// The tag and the state of each delivery, as an attach states them (2.7.3).
    ///
    /// Refused only if it is out of memory. Does not allocate if there are none.
    pub fn states(&self) -> Result<UnsettledMap<Option<DeliveryState>>, AllocError>
        ensures states { IfOk result (λ states. states ≡ states_of self.now) }
        ensures memory { OnErr result (0 < length self.now) }
    {
        let mut states = IndexMap::with_capacity(*self.map.allocator(), self.map.len())?;
        for (tag, message) in &self.map {
            put_state(&mut states, tag, message)?;
        }
        Ok(UnsettledMap { map: states })
    }
}

// Puts copies of a delivery's tag and of its state.
fn put_state(
    states: &mut IndexMap<DeliveryTag, Option<DeliveryState>>,
    tag: &DeliveryTag,
    message: &UnsettledMessage,
) -> Result<(), AllocError>
    ensures { OnOk result (states.new.entries ≡ with_entry states.old.entries tag.now message.now.state) }
{
    let tag = tag.clone()?;
    let state = message.state.clone()?;
    drop(states.insert(tag, state)?);
    Ok(())
}

// The entries of an attach are copied (2.7.3).
impl Clone for UnsettledMap<Option<DeliveryState>> {
    ghost is_clone = { λ map copy. copy ≡ map };

    ghost is_infallible = { λ map. carries_any map ≡ false };

    // The copy of a map allocates even if the map is empty, so that this case is handled first.
    fn clone(&self) -> Result<UnsettledMap<Option<DeliveryState>>, AllocError>
        ensures copy { IfOk result (λ copy. copy ≡ self.now) }
        ensures memory { OnErr result (0 < length self.now) }
    {
        if self.is_empty() {
            return Ok(UnsettledMap::new(*self.map.allocator()));
        }
        Ok(UnsettledMap {
            map: self.map.clone()?,
        })
    }
}

impl<V: PartialEq> PartialEq for UnsettledMap<V> {
    ghost use Rattle.std.specs.Cmp.Lexicographic.{pointwise, lists_per, nat_list_eq_equiv};
    ghost use Rattle.std.specs.Cmp.{and_per, on_per, partial_equiv_from_equiv};
    ghost use Rattle.std.specs.Prelude.{◌&&◌};

    ghost eq = { pointwise (λ e f. bytes_eq e.0 f.0 && V.eq e.1 f.1) };

    ghost laws = { lists_per (and_per
        (on_per (λ e. e.0) (partial_equiv_from_equiv nat_list_eq_equiv))
        (on_per (λ e. e.1) V.laws)) };

    // Two maps are equal if their pairs are, in their order.
    fn eq(&self, other: &UnsettledMap<V>) -> bool {
        self.pairs() == other.pairs()
    }
}

impl<V: Eq> Eq for UnsettledMap<V> {
    ghost use Rattle.std.specs.Cmp.Lexicographic.{lists_equiv, nat_list_eq_equiv};
    ghost use Rattle.std.specs.Cmp.{and_equiv, on_equiv};

    ghost laws = { lists_equiv (and_equiv
        (on_equiv (λ e. e.0) nat_list_eq_equiv)
        (on_equiv (λ e. e.1) V.Eq.laws)) };
}
