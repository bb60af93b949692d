//! `clone` of values, written by hand, since a derived one has no contract for a type that contains itself.
ghost use Rattle.std.specs.Prelude.{◌≡◌, ◌<◌, true, false, length, IfOk, OnErr};
ghost use Rattle.amqp_link_values.specs.Copies.{kind_carries_more, data_carries_more};
ghost use Rattle.amqp_link_values.specs.View.{view, items_view, pairs_view};

use crate::copy::{copy_of_list, copy_of_string};
use crate::value::{Descriptor, Value};
use std::alloc::AllocError;

impl Clone for Descriptor {
    ghost is_clone = { λ descriptor copy. copy ≡ descriptor };

    ghost is_infallible = { λ descriptor. kind_carries_more descriptor ≡ false };

    // Only a name allocates.
    fn clone(&self) -> Result<Descriptor, AllocError>
        ensures copy { IfOk result (λ copy. copy ≡ self.now) }
        ensures memory { OnErr result (kind_carries_more self.now ≡ true) }
    {
        match self {
            Descriptor::Code(code) => Ok(Descriptor::Code(*code)),
            Descriptor::Name(name) => Ok(Descriptor::Name(name.clone()?)),
        }
    }
}

impl Clone for Value {
    ghost is_clone = { λ value copy. view copy ≡ view value };

    ghost is_infallible = { λ value. data_carries_more (view value) ≡ false };

    // A value of fixed width does not allocate, nor does one that is empty.
    fn clone(&self) -> Result<Value, AllocError>
        ensures copy { IfOk result (λ copy. view copy ≡ view self.now) }
        ensures memory { OnErr result (data_carries_more (view self.now) ≡ true) }
    {
        copy(self)
    }
}

#[cycle(copy)]
#[tactic(auto, using(crate::proofs::CopyLemmas::carrying))]
fn copy(value: &Value) -> Result<Value, AllocError>
    ensures copy { IfOk result (λ copy. view copy ≡ view value.now) }
    ensures memory { OnErr result (data_carries_more (view value.now) ≡ true) }
{
    match value {
        Value::Null => Ok(Value::Null),
        Value::Bool(b) => Ok(Value::Bool(*b)),
        Value::Ubyte(n) => Ok(Value::Ubyte(*n)),
        Value::Ushort(n) => Ok(Value::Ushort(*n)),
        Value::Uint(n) => Ok(Value::Uint(*n)),
        Value::Ulong(n) => Ok(Value::Ulong(*n)),
        Value::Byte(n) => Ok(Value::Byte(*n)),
        Value::Short(n) => Ok(Value::Short(*n)),
        Value::Int(n) => Ok(Value::Int(*n)),
        Value::Long(n) => Ok(Value::Long(*n)),
        Value::Timestamp(n) => Ok(Value::Timestamp(*n)),
        Value::Binary(bytes) => Ok(Value::Binary(copy_of_list(bytes)?)),
        Value::String(text) => Ok(Value::String(copy_of_string(text)?)),
        Value::Symbol(symbol) => Ok(Value::Symbol(symbol.clone()?)),
        Value::List(items) => Ok(Value::List(copy_items(items)?)),
        Value::Map(pairs) => Ok(Value::Map(copy_pairs(pairs)?)),
        Value::SymbolArray(symbols) => Ok(Value::SymbolArray(copy_of_list(symbols)?)),
        Value::Described(descriptor, value) => {
            let descriptor = descriptor.clone()?;
            let inner = copy(value)?;
            Ok(Value::Described(descriptor, Box::new(*Box::allocator(value), inner)?))
        }
    }
}

#[cycle(copy)]
fn copy_items(items: &Vec<Value>) -> Result<Vec<Value>, AllocError>
    ensures copy { IfOk result (λ v. items_view v.items ≡ items_view items.now.items) }
    ensures memory { OnErr result (0 < length items.now.items) }
{
    let mut copies = Vec::with_capacity(*items.allocator(), items.len())?;
    for item in items {
        copies.push(copy(item)?)?;
    }
    Ok(copies)
}

#[cycle(copy)]
fn copy_pairs(pairs: &Vec<(Value, Value)>) -> Result<Vec<(Value, Value)>, AllocError>
    ensures copy { IfOk result (λ v. pairs_view v.items ≡ pairs_view pairs.now.items) }
    ensures memory { OnErr result (0 < length pairs.now.items) }
{
    let mut copies = Vec::with_capacity(*pairs.allocator(), pairs.len())?;
    for (key, value) in pairs {
        let key = copy(key)?;
        copies.push((key, copy(value)?))?;
    }
    Ok(copies)
}
