//! Maps from symbols to values (2.8.13).
ghost use Rattle.std.specs.Prelude.{◌≡◌, ◌↔◌, ◌<◌, ◌+◌, ◌==◌, ℕ, List, [], map, length, option_map};
ghost use Rattle.std.specs.Prelude.{IsTrue, false, None, OnOk, OnErr, IfOk, IfErr};
ghost use Rattle.std.specs.Cmp.{partial_equiv_from_equiv};
ghost use Rattle.std.specs.Map.{lookup};
ghost use Rattle.std.specs.Map.Iter.{ShowsInOrder, GivesInOrder, deref_pair};
ghost use Rattle.std.specs.Str.{bytes_eq};
ghost use Rattle.indexmap.specs.IndexMap.{insert_entry, insert_all};
ghost use Rattle.amqp_link_values.specs.Copies.{carries_any};
ghost use Rattle.amqp_link_values.specs.Same.{same_entries};
ghost use Rattle.amqp_link_values.specs.View.{view, view_entry};
ghost use Rattle.amqp_link_values.specs.SameLaws.{entries_equiv};
ghost use Rattle.amqp_link_values.specs.declared.value.Value.{Value as TheValue};

use crate::symbol::Symbol;
use crate::value::Value;
use indexmap::IndexMap;
use indexmap::map::{IntoIter, Iter};
use std::alloc::{AllocError, AllocFailed, Global};
use std::marker::Model;

/// Values by name, in the order in which they were first put (2.8.13). Two of them are equal if their pairs are, in this
/// order: to compare what two peers state, look its names up.
///
/// A contract sees the list of the pairs, each a name and the data of its value.
#[derive(Debug, Drop)]
pub struct Fields {
    entries: IndexMap<Symbol, Value>,
}

/// The filters of a source by their names (3.5.8).
pub type FilterSet = Fields;

impl Model for Fields {
    ghost use Rattle.std.specs.Prelude.{ℕ, List, map};
    ghost use Rattle.std.specs.Coded.{coded×, coded_list, coded_ℕ};
    ghost use Rattle.amqp_link_values.specs.Data.{Data};
    ghost use Rattle.amqp_link_values.specs.Code.{data_code};

    ghost Value = { List (List ℕ × Data) };

    ghost coded = { coded_list (coded× (coded_list coded_ℕ) data_code) };

    ghost use Rattle.amqp_link_values.specs.View.{view_entry};

    ghost view = { λ fields. map view_entry fields.entries.entries };
}

impl Fields {
    /// No fields. Does not allocate.
    pub fn new(alloc: Global) -> Fields
        ensures { result ≡ [] }
    {
        Fields {
            entries: IndexMap::new(alloc),
        }
    }

    /// How many fields there are.
    pub fn len(&self) -> usize
        ensures { result ≡ length self.now }
    {
        self.entries.len()
    }

    /// Whether there are none.
    pub fn is_empty(&self) -> bool
        ensures { result ≡ (length self.now == 0) }
    {
        self.len() == 0
    }

    /// The names with their values, in the order in which the names were first put.
    pub fn iter(&self) -> Iter<'_, Symbol, Value>
        ensures pairs { map view_entry result ≡ self.now }
        ensures runs { ShowsInOrder (deref_pair {K = List ℕ} {X = TheValue}) }
    {
        self.entries.iter()
    }

    /// The names with their values in the same order, without the map. Does not allocate.
    pub fn into_pairs(self) -> IntoIter<Symbol, Value>
        ensures pairs { map view_entry result ≡ self }
        ensures runs { GivesInOrder (List ℕ × TheValue) }
    {
        self.entries.into_iter()
    }

    /// The allocator of the fields, with which a caller can make a list of some of them. Does not allocate.
    pub fn allocator(&self) -> Global {
        *self.entries.allocator()
    }

    /// The value under a name.
    pub fn get(&self, name: &Symbol) -> Option<&Value>
        ensures { option_map (λ v. view v.now) result ≡ lookup (bytes_eq name.now) self.now }
    {
        self.entries.get(name)
    }

    /// Puts a value under a name: in the place of the one that is there, which is returned, or last.
    /// Allocates only for a new name; if it is out of memory, both are returned.
    pub fn insert(
        &mut self,
        name: Symbol,
        value: Value,
    ) -> Result<Option<Value>, AllocFailed<(Symbol, Value)>>
        ensures ok { OnOk result (self.new ≡ insert_entry bytes_eq self.old name (view value)) }
        ensures replaced { IfOk result (λ v. option_map view v ≡ lookup (bytes_eq name) self.old) }
        ensures left { OnErr result (self.new ≡ self.old) }
        ensures absent { OnErr result (lookup (bytes_eq name) self.old ≡ None) }
        ensures back { IfErr result (λ failed. failed.value ≡ (name, value)) }
    {
        self.entries.insert(name, value)
    }

    /// These fields with those of `other` put one by one. Neither changes. Does not allocate if both are
    /// empty.
    pub fn merged(&self, other: &Fields) -> Result<Fields, AllocError>
        ensures merged { IfOk result (λ both. both ≡ insert_all bytes_eq self.now other.now) }
        ensures memory { OnErr result (0 < length self.now + length other.now) }
    {
        if other.is_empty() {
            return self.clone();
        }
        let mut both = self.clone()?;
        for (name, value) in other.entries.iter() {
            both.put_copy(name, value)?;
        }
        Ok(both)
    }

    // Puts a copy of a pair.
    fn put_copy(&mut self, name: &Symbol, value: &Value) -> Result<(), AllocError>
        ensures { OnOk result (self.new ≡ insert_entry bytes_eq self.old name.now (view value.now)) }
    {
        let name = name.clone()?;
        let value = value.clone()?;
        drop(self.insert(name, value)?);
        Ok(())
    }

    // The pairs in order.
    pub(crate) fn entries(&self) -> &IndexMap<Symbol, Value>
        ensures { map view_entry result.now.entries ≡ self.now }
    {
        &self.entries
    }
}

impl Clone for Fields {
    ghost is_clone = { λ fields copy. copy ≡ fields };

    ghost is_infallible = { λ fields. carries_any fields ≡ false };

    // The copy of a map allocates even if the map is empty, so that this case is handled first.
    fn clone(&self) -> Result<Fields, AllocError>
        ensures copy { IfOk result (λ copy. copy ≡ self.now) }
        ensures memory { OnErr result (0 < length self.now) }
    {
        if self.is_empty() {
            return Ok(Fields::new(*self.entries.allocator()));
        }
        Ok(Fields {
            entries: self.entries.clone()?,
        })
    }
}

impl PartialEq for Fields {
    ghost eq = { same_entries };

    ghost laws = { partial_equiv_from_equiv entries_equiv };

    // Two maps are equal if their entries are, in their order.
    fn eq(&self, other: &Fields) -> bool
        ensures value { result ≡ same_entries self.now other.now }
        ensures equal { IsTrue result ↔ (self.now ≡ other.now) }
    {
        self.entries.as_slice() == other.entries.as_slice()
    }
}

impl Eq for Fields {
    ghost laws = { entries_equiv };
}
