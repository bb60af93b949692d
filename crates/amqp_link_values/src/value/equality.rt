//! `==` of values, which compares their data.
ghost use Rattle.std.specs.Prelude.{◌≡◌, ◌↔◌, IsTrue};
ghost use Rattle.std.specs.Cmp.{partial_equiv_from_equiv};
ghost use Rattle.amqp_link_values.specs.Same.{same_data, same_items, same_pairs, same_kind};
ghost use Rattle.amqp_link_values.specs.View.{view, items_view, pairs_view};
ghost use Rattle.amqp_link_values.specs.SameLaws.{kind_equiv, value_equiv};

use crate::value::{Descriptor, Value};

#[tactic(auto, using(crate::proofs::SameLevels::levels))]
impl PartialEq for Descriptor {
    ghost eq = { same_kind };

    ghost laws = { partial_equiv_from_equiv kind_equiv };

    fn eq(&self, other: &Descriptor) -> bool
        ensures value { result ≡ same_kind self.now other.now }
        ensures equal { IsTrue result ↔ (self.now ≡ other.now) }
    {
        match (self, other) {
            (Descriptor::Code(a), Descriptor::Code(b)) => a == b,
            (Descriptor::Name(a), Descriptor::Name(b)) => a == b,
            _ => false,
        }
    }
}

impl Eq for Descriptor {
    ghost laws = { kind_equiv };
}

impl PartialEq for Value {
    ghost eq = { λ v w. same_data (view v) (view w) };

    ghost laws = { partial_equiv_from_equiv value_equiv };

    fn eq(&self, other: &Value) -> bool
        ensures value { result ≡ same_data (view self.now) (view other.now) }
        ensures equal { IsTrue result ↔ (view self.now ≡ view other.now) }
    {
        same(self, other)
    }
}

impl Eq for Value {
    ghost laws = { value_equiv };
}

#[cycle(same)]
#[tactic(auto, using(crate::proofs::SameLevels::levels))]
fn same(left: &Value, right: &Value) -> bool
    ensures { result ≡ same_data (view left.now) (view right.now) }
{
    match (left, right) {
        (Value::Null, Value::Null) => true,
        (Value::Bool(a), Value::Bool(b)) => a == b,
        (Value::Ubyte(a), Value::Ubyte(b)) => a == b,
        (Value::Ushort(a), Value::Ushort(b)) => a == b,
        (Value::Uint(a), Value::Uint(b)) => a == b,
        (Value::Ulong(a), Value::Ulong(b)) => a == b,
        (Value::Byte(a), Value::Byte(b)) => a == b,
        (Value::Short(a), Value::Short(b)) => a == b,
        (Value::Int(a), Value::Int(b)) => a == b,
        (Value::Long(a), Value::Long(b)) => a == b,
        (Value::Timestamp(a), Value::Timestamp(b)) => a == b,
        (Value::Binary(a), Value::Binary(b)) => a == b,
        (Value::String(a), Value::String(b)) => a == b,
        (Value::Symbol(a), Value::Symbol(b)) => a == b,
        (Value::SymbolArray(a), Value::SymbolArray(b)) => a == b,
        (Value::List(a), Value::List(b)) => same_lists(a, b),
        (Value::Map(a), Value::Map(b)) => same_maps(a, b),
        (Value::Described(a, v), Value::Described(b, w)) => a == b && same(v, w),
        _ => false,
    }
}

#[cycle(same)]
#[tactic(auto, using(crate::proofs::SameLevels::levels))]
fn same_lists(left: &[Value], right: &[Value]) -> bool
    ensures { result ≡ same_items (items_view left.now) (items_view right.now) }
{
    if left.len() != right.len() {
        return false;
    }
    for i in 0..left.len() {
        if !same(&left[i], &right[i]) {
            return false;
        }
    }
    true
}

#[cycle(same)]
#[tactic(auto, using(crate::proofs::SameLevels::levels))]
fn same_maps(left: &[(Value, Value)], right: &[(Value, Value)]) -> bool
    ensures { result ≡ same_pairs (pairs_view left.now) (pairs_view right.now) }
{
    if left.len() != right.len() {
        return false;
    }
    for i in 0..left.len() {
        let (key, value) = &left[i];
        let (other_key, other_value) = &right[i];
        if !same(key, other_key) || !same(value, other_value) {
            return false;
        }
    }
    true
}
