//! Values of any type, as a row gives them.
use crate::error::RowError;
use crate::fields::{if_read, none_before};
use crate::reader::{ReadFrom, Reader, value_of};
use amqp_link_types::types::{DeliveryTag, Descriptor, Fields, Symbol, Symbols, Text, Value};

// How deep values may be nested.
const MOST_NESTED: u32 = 16;

// The types whose values contain no others; null, true and false are values by themselves.
#[derive(Clone, Copy)]
enum Plain {
    Null,
    True,
    False,
    Binary,
    String,
    Symbol,
    Symbols,
    Ubyte,
    Ushort,
    Uint,
    Ulong,
    Byte,
    Short,
    Int,
    Long,
    Timestamp,
}

// The types whose values contain others.
#[derive(Clone, Copy)]
enum Nested {
    List,
    Map,
    Described,
}

const BOOLS: &[(&str, bool)] = &[("true", true), ("false", false)];

const PLAIN: &[(&str, Plain)] = &[
    ("_", Plain::Null),
    ("true", Plain::True),
    ("false", Plain::False),
    ("binary", Plain::Binary),
    ("string", Plain::String),
    ("symbol", Plain::Symbol),
    ("symbols", Plain::Symbols),
    ("ubyte", Plain::Ubyte),
    ("ushort", Plain::Ushort),
    ("uint", Plain::Uint),
    ("ulong", Plain::Ulong),
    ("byte", Plain::Byte),
    ("short", Plain::Short),
    ("int", Plain::Int),
    ("long", Plain::Long),
    ("timestamp", Plain::Timestamp),
];

const NESTED: &[(&str, Nested)] = &[
    ("list", Nested::List),
    ("map", Nested::Map),
    ("described", Nested::Described),
];

impl ReadFrom for bool {
    fn read(reader: &mut Reader) -> Result<bool, RowError> {
        value_of(BOOLS, reader.word()?)
    }
}

impl ReadFrom for u32 {
    fn read(reader: &mut Reader) -> Result<u32, RowError> {
        reader.expect(b"uint")?;
        read_u32(reader)
    }
}

impl ReadFrom for u64 {
    fn read(reader: &mut Reader) -> Result<u64, RowError> {
        reader.expect(b"ulong")?;
        reader.unsigned()
    }
}

impl ReadFrom for Text {
    fn read(reader: &mut Reader) -> Result<Text, RowError> {
        reader.expect(b"string")?;
        Ok(Text::from(reader.text()?))
    }
}

impl ReadFrom for Symbol {
    fn read(reader: &mut Reader) -> Result<Symbol, RowError> {
        reader.expect(b"symbol")?;
        Ok(Symbol::from(reader.text()?))
    }
}

impl ReadFrom for DeliveryTag {
    fn read(reader: &mut Reader) -> Result<DeliveryTag, RowError> {
        reader.expect(b"binary")?;
        Ok(DeliveryTag::from(reader.bytes()?))
    }
}

impl ReadFrom for Symbols {
    fn read(reader: &mut Reader) -> Result<Symbols, RowError> {
        reader.expect(b"symbols")?;
        Ok(Symbols::from(read_names(reader)?))
    }
}

impl ReadFrom for Fields {
    // A name that occurs twice is refused.
    fn read(reader: &mut Reader) -> Result<Fields, RowError> {
        reader.expect(b"map")?;
        let mut fields = Fields::new(reader.alloc());
        let read = read_fields(&mut fields, reader);
        if_read(fields, read)
    }
}

fn read_fields(fields: &mut Fields, reader: &mut Reader) -> Result<(), RowError> {
    for _ in 0..reader.unsigned()? {
        read_field(fields, reader)?;
    }
    Ok(())
}

fn read_field(fields: &mut Fields, reader: &mut Reader) -> Result<(), RowError> {
    let name = Symbol::read(reader)?;
    match Value::read(reader) {
        Ok(value) => none_before(fields.insert(name, value)?),
        Err(error) => {
            drop(name);
            Err(error)
        }
    }
}

impl ReadFrom for Descriptor {
    fn read(reader: &mut Reader) -> Result<Descriptor, RowError> {
        if reader.is_at(b"ulong") {
            Ok(Descriptor::Code(u64::read(reader)?))
        } else {
            Ok(Descriptor::Name(Symbol::read(reader)?))
        }
    }
}

impl ReadFrom for Value {
    fn read(reader: &mut Reader) -> Result<Value, RowError> {
        read_value(reader, MOST_NESTED)
    }
}

// Values hold values, so four functions call one another.
#[cycle(read_value)]
fn read_value(reader: &mut Reader, depth: u32) -> Result<Value, RowError> {
    let word = reader.word()?;
    if let Ok(plain) = value_of(PLAIN, word) {
        return read_plain(reader, plain);
    }
    if depth == 0 {
        return Err(RowError::NotARow);
    }
    match value_of(NESTED, word)? {
        Nested::List => read_list(reader, depth - 1),
        Nested::Map => read_map(reader, depth - 1),
        Nested::Described => read_described(reader, depth - 1),
    }
}

#[cycle(read_value)]
fn read_list(reader: &mut Reader, depth: u32) -> Result<Value, RowError> {
    let mut items = Vec::new(reader.alloc());
    for _ in 0..reader.unsigned()? {
        items.push(read_value(reader, depth)?)?;
    }
    Ok(Value::List(items))
}

#[cycle(read_value)]
fn read_map(reader: &mut Reader, depth: u32) -> Result<Value, RowError> {
    let mut pairs = Vec::new(reader.alloc());
    for _ in 0..reader.unsigned()? {
        let key = read_value(reader, depth)?;
        pairs.push((key, read_value(reader, depth)?))?;
    }
    Ok(Value::Map(pairs))
}

#[cycle(read_value)]
fn read_described(reader: &mut Reader, depth: u32) -> Result<Value, RowError> {
    let descriptor = Descriptor::read(reader)?;
    let value = Box::new(reader.alloc(), read_value(reader, depth)?)?;
    Ok(Value::Described(descriptor, value))
}

// The value after the word that names its type.
fn read_plain(reader: &mut Reader, plain: Plain) -> Result<Value, RowError> {
    match plain {
        Plain::Null => Ok(Value::Null),
        Plain::True => Ok(Value::Bool(true)),
        Plain::False => Ok(Value::Bool(false)),
        Plain::Binary | Plain::String | Plain::Symbol | Plain::Symbols => read_bytes(reader, plain),
        Plain::Ubyte | Plain::Ushort | Plain::Uint | Plain::Ulong => read_unsigned(reader, plain),
        _ => read_signed(reader, plain),
    }
}

fn read_bytes(reader: &mut Reader, plain: Plain) -> Result<Value, RowError> {
    match plain {
        Plain::Binary => Ok(Value::Binary(reader.bytes()?)),
        Plain::String => Ok(Value::String(reader.text()?)),
        Plain::Symbol => Ok(Value::Symbol(Symbol::from(reader.text()?))),
        _ => Ok(Value::SymbolArray(read_names(reader)?)),
    }
}

fn read_unsigned(reader: &mut Reader, plain: Plain) -> Result<Value, RowError> {
    match plain {
        Plain::Ubyte => Ok(Value::Ubyte(read_u8(reader)?)),
        Plain::Ushort => Ok(Value::Ushort(read_u16(reader)?)),
        Plain::Uint => Ok(Value::Uint(read_u32(reader)?)),
        _ => Ok(Value::Ulong(reader.unsigned()?)),
    }
}

fn read_signed(reader: &mut Reader, plain: Plain) -> Result<Value, RowError> {
    match plain {
        Plain::Byte => Ok(Value::Byte(read_i8(reader)?)),
        Plain::Short => Ok(Value::Short(read_i16(reader)?)),
        Plain::Int => Ok(Value::Int(read_i32(reader)?)),
        Plain::Long => Ok(Value::Long(reader.signed()?)),
        _ => Ok(Value::Timestamp(reader.signed()?)),
    }
}

// Names, after their number.
fn read_names(reader: &mut Reader) -> Result<Vec<Symbol>, RowError> {
    let mut names = Vec::new(reader.alloc());
    for _ in 0..reader.unsigned()? {
        names.push(Symbol::from(reader.text()?))?;
    }
    Ok(names)
}

// ---- numbers of fewer bits

pub(crate) fn read_u8(reader: &mut Reader) -> Result<u8, RowError> {
    Ok(u8::try_from(reader.unsigned()?)?)
}

fn read_u16(reader: &mut Reader) -> Result<u16, RowError> {
    Ok(u16::try_from(reader.unsigned()?)?)
}

fn read_u32(reader: &mut Reader) -> Result<u32, RowError> {
    Ok(u32::try_from(reader.unsigned()?)?)
}

fn read_i8(reader: &mut Reader) -> Result<i8, RowError> {
    Ok(i8::try_from(reader.signed()?)?)
}

fn read_i16(reader: &mut Reader) -> Result<i16, RowError> {
    Ok(i16::try_from(reader.signed()?)?)
}

fn read_i32(reader: &mut Reader) -> Result<i32, RowError> {
    Ok(i32::try_from(reader.signed()?)?)
}
