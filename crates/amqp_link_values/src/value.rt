//! Values of any type (1.6).
mod copy;
mod equality;

use crate::symbol::Symbol;

/// The descriptor of a described value: which type it is of (1.2.2).
#[derive(Debug, Drop)]
pub enum Descriptor {
    /// A numeric descriptor.
    Code(u64),
    /// A symbolic descriptor.
    Name(Symbol),
}

/// A value of a field or a filter (1.6).
///
/// Contracts see a value through `view`, as the data that it stands for, whatever memory holds it.
/// Floats, decimals, characters, UUIDs and arrays of anything but symbols are left out.
#[derive(Debug, Drop)]
pub enum Value {
    /// Nothing (1.6.1).
    Null,
    /// A truth value (1.6.2).
    Bool(bool),
    /// Unsigned, 8 bits (1.6.3).
    Ubyte(u8),
    /// Unsigned, 16 bits (1.6.4).
    Ushort(u16),
    /// Unsigned, 32 bits (1.6.5).
    Uint(u32),
    /// Unsigned, 64 bits (1.6.6).
    Ulong(u64),
    /// Signed, 8 bits (1.6.7).
    Byte(i8),
    /// Signed, 16 bits (1.6.8).
    Short(i16),
    /// Signed, 32 bits (1.6.9).
    Int(i32),
    /// Signed, 64 bits (1.6.10).
    Long(i64),
    /// Milliseconds since the beginning of 1970 (1.6.17).
    Timestamp(i64),
    /// Bytes (1.6.19).
    Binary(Vec<u8>),
    /// A text (1.6.20).
    String(String),
    /// A symbol (1.6.21).
    Symbol(Symbol),
    /// A list (1.6.22).
    List(Vec<Value>),
    /// Pairs of a key and a value, in order (1.6.23).
    Map(Vec<(Value, Value)>),
    /// An array of symbols (1.6.24).
    SymbolArray(Vec<Symbol>),
    /// A value with a descriptor (1.2).
    Described(Descriptor, Box<Value>),
}
