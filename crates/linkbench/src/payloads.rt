//! The payloads that works send and scan.
use crate::refused::Refused;
use amqp_link::types::Payload;
use std::alloc::Global;

/// What a payload is made of.
#[derive(Clone, Copy)]
pub enum Kind {
    /// Printable characters.
    Text,
    /// Any bytes.
    Random,
    /// Nothing but zeros.
    Zeros,
    /// Section headers with a code of one byte, one after the other.
    Headers,
    /// Those with a code of eight bytes.
    LongHeaders,
}

/// A payload of this kind and length.
pub fn payload_of(alloc: Global, kind: Kind, length: usize) -> Result<Payload, Refused> {
    let mut bytes = Vec::with_capacity(alloc, length)?;
    fill(&mut bytes, kind, length)?;
    Ok(Payload::from_vec(bytes)?)
}

/// A message of this length, as an application writes it: a data section of text (3.2.6), with its header.
pub fn message_of(alloc: Global, length: usize) -> Result<Payload, Refused> {
    let mut bytes = Vec::with_capacity(alloc, length)?;
    open_section(&mut bytes, length)?;
    let left = length.saturating_sub(bytes.len());
    fill(&mut bytes, Kind::Text, left)?;
    Ok(Payload::from_vec(bytes)?)
}

// The header of a data section that fills a message of this length: its data has a length of one byte or of four.
fn open_section(bytes: &mut Vec<u8>, length: usize) -> Result<(), Refused> {
    bytes.extend_from_slice(&[0x00, 0x53, 0x75])?;
    match u8::try_from(length.saturating_sub(5)) {
        Ok(size) => bytes.extend_from_slice(&[0xA0, size])?,
        Err(_) => {
            bytes.push(0xB0)?;
            let size = u32::try_from(length.saturating_sub(8)).unwrap_or(u32::MAX);
            bytes.extend_from_slice(&size.to_be_bytes())?;
        }
    }
    Ok(())
}

// Adds so many bytes of this kind.
fn fill(bytes: &mut Vec<u8>, kind: Kind, count: usize) -> Result<(), Refused> {
    let mut seed = 0x9E37_79B9_7F4A_7C15u64;
    for at in 0..count {
        seed = next(seed);
        bytes.push(byte_of(kind, seed, at))?;
    }
    Ok(())
}

// The next number of a sequence that looks random (xorshift).
fn next(seed: u64) -> u64 {
    let seed = seed ^ (seed << 13);
    let seed = seed ^ (seed >> 7);
    seed ^ (seed << 17)
}

fn byte_of(kind: Kind, seed: u64, at: usize) -> u8 {
    let [_, high, ..] = seed.to_be_bytes();
    match kind {
        Kind::Text => b' ' + high % 95,
        Kind::Random => high,
        Kind::Zeros => 0,
        Kind::Headers => header_byte(at),
        Kind::LongHeaders => long_header_byte(at),
    }
}

// A data section's header, without what follows it.
fn header_byte(at: usize) -> u8 {
    match at % 3 {
        0 => 0x00,
        1 => 0x53,
        _ => 0x75,
    }
}

// The same with a code of eight bytes.
fn long_header_byte(at: usize) -> u8 {
    match at % 10 {
        1 => 0x80,
        9 => 0x75,
        _ => 0x00,
    }
}
