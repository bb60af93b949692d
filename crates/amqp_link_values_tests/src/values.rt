//! What no clause states of the values: that each call succeeds while there is memory.
use crate::assertions::{assert_equal, assert_equal_at, assert_holds_at};
use amqp_link_values::{DeliveryTag, Descriptor, Fields, Symbol, Symbols, Text, Value};
use std::process::Abort;

fn string(rt: &(impl Abort + AllocGlobal), words: &str) -> String {
    String::from_str(rt.alloc(), words).expect(rt, "memory")
}

fn symbol(rt: &(impl Abort + AllocGlobal), name: &str) -> Symbol {
    Symbol::from(string(rt, name))
}

// A list of one symbol.
fn names(rt: &(impl Abort + AllocGlobal)) -> Vec<Symbol> {
    vec![in rt.alloc(); symbol(rt, "a")].expect(rt, "memory")
}

fn bytes(rt: &(impl Abort + AllocGlobal)) -> Vec<u8> {
    vec![in rt.alloc(); 1u8, 2].expect(rt, "memory")
}

fn list(rt: &(impl Abort + AllocGlobal)) -> Value {
    Value::List(vec![in rt.alloc(); Value::Ubyte(1)].expect(rt, "memory"))
}

fn map(rt: &(impl Abort + AllocGlobal)) -> Value {
    let pairs = vec![in rt.alloc(); (Value::Null, Value::Ubyte(1))];
    Value::Map(pairs.expect(rt, "memory"))
}

fn described(rt: &(impl Abort + AllocGlobal), descriptor: Descriptor) -> Value {
    let inner = Box::new(rt.alloc(), Value::Ubyte(1)).expect(rt, "memory");
    Value::Described(descriptor, inner)
}

// Whether a copy is equal to its original.
fn is_copied<T: Clone + PartialEq + Drop>(rt: &impl Abort, original: T) -> bool {
    let copy = original.clone().expect(rt, "memory");
    let is_equal = copy == original;
    drop((copy, original));
    is_equal
}

fn is_value_copied(rt: &impl Abort, value: Value, kind: &str) {
    assert_holds_at(rt, is_copied(rt, value), &kind);
}

#[test]
fn a_copied_value_is_equal(rt: HostRuntime) {
    is_value_copied(&rt, Value::Binary(bytes(&rt)), "binary");
    is_value_copied(&rt, Value::String(string(&rt, "a")), "string");
    is_value_copied(&rt, Value::Symbol(symbol(&rt, "a")), "symbol");
    is_value_copied(&rt, Value::SymbolArray(names(&rt)), "array of symbols");
    is_value_copied(&rt, list(&rt), "list");
    is_value_copied(&rt, map(&rt), "map");
    let code = described(&rt, Descriptor::Code(2));
    is_value_copied(&rt, code, "described by a code");
    let name = described(&rt, Descriptor::Name(symbol(&rt, "a")));
    is_value_copied(&rt, name, "described by a name");
}

// Their copies take no memory, so none is refused.
#[test]
fn a_copied_value_of_fixed_width_is_equal(rt: HostRuntime) {
    is_value_copied(&rt, Value::Null, "null");
    is_value_copied(&rt, Value::Bool(true), "bool");
    is_value_copied(&rt, Value::Ubyte(1), "ubyte");
    is_value_copied(&rt, Value::Ushort(2), "ushort");
    is_value_copied(&rt, Value::Uint(3), "uint");
    is_value_copied(&rt, Value::Ulong(4), "ulong");
    is_value_copied(&rt, Value::Byte(-1), "byte");
    is_value_copied(&rt, Value::Short(-2), "short");
    is_value_copied(&rt, Value::Int(-3), "int");
    is_value_copied(&rt, Value::Long(-4), "long");
    is_value_copied(&rt, Value::Timestamp(-5), "timestamp");
    assert_holds_at(&rt, is_copied(&rt, Descriptor::Code(2)), &"a code");
}

#[test]
fn copied_names_are_equal(rt: HostRuntime) {
    let text = Text::from(string(&rt, "a"));
    assert_holds_at(&rt, is_copied(&rt, text), &"a text");
    assert_holds_at(&rt, is_copied(&rt, symbol(&rt, "a")), &"a symbol");
    let list = Symbols::from(names(&rt));
    assert_holds_at(&rt, is_copied(&rt, list), &"a list of symbols");
    let descriptor = Descriptor::Name(symbol(&rt, "a"));
    assert_holds_at(&rt, is_copied(&rt, descriptor), &"a descriptor");
}

fn put(rt: &(impl Abort + AllocGlobal), fields: &mut Fields, name: &str, number: u8) {
    let put = fields.insert(symbol(rt, name), Value::Ubyte(number));
    drop(put.expect(rt, "memory"));
}

// These numbers under these names.
fn named(rt: &(impl Abort + AllocGlobal), pairs: &[(&str, u8)]) -> Fields {
    let mut fields = Fields::new(rt.alloc());
    for pair in pairs {
        put(rt, &mut fields, pair.0, pair.1);
    }
    fields
}

// Two fields, with two put into them.
fn merged(rt: &(impl Abort + AllocGlobal)) -> Fields {
    let own = named(rt, &[("a", 1), ("b", 2)]);
    let theirs = named(rt, &[("b", 3), ("c", 4)]);
    let both = own.merged(&theirs).expect(rt, "memory");
    drop((own, theirs));
    both
}

#[test]
fn fields_are_put_one_by_one(rt: HostRuntime) {
    let both = merged(&rt);
    let wanted = named(&rt, &[("a", 1), ("b", 3), ("c", 4)]);
    let is_wanted = both == wanted;
    drop(both);
    assert_holds_at(&rt, is_wanted, &"a, the newer b, and c");
    assert_holds_at(&rt, is_copied(&rt, wanted), &"a copy");
}

// Whether a tag of so many bytes, its copy, and a tag that took the buffer have these bytes.
fn keeps_bytes(rt: &(impl Abort + AllocGlobal), len: usize) -> (bool, bool, bool) {
    let bytes = vec![in rt.alloc(); 7u8; len].expect(rt, "memory");
    let tag = DeliveryTag::copied(rt.alloc(), bytes.as_slice()).expect(rt, "memory");
    let is_made = tag.as_bytes() == bytes.as_slice();
    let is_same = DeliveryTag::from(bytes) == tag;
    (is_made, is_same, is_copied(rt, tag))
}

#[test]
fn tags_of_few_and_of_many_bytes(rt: HostRuntime) {
    for len in &[0, 4, 16, 17, 32] {
        assert_equal_at(&rt, &keeps_bytes(&rt, *len), &(true, true, true), len);
    }
}

#[test]
fn a_tag_prints_its_bytes(rt: HostRuntime) {
    let tag = DeliveryTag::from(bytes(&rt));
    let text = format!(in rt.alloc(); "{tag:?}").expect(&rt, "memory");
    assert_equal(&rt, &text.as_str(), &"DeliveryTag { bytes: [1, 2] }");
    drop((tag, text));
}
