//! Words of a row that no performative has.
use amqp_link_types::types::{DeliveryTag, Payload};
use line_text::hex::parse_bytes;
use line_text::number::parse_unsigned;
use performative_rows::error::RowError;
use performative_rows::reader::Reader;
use std::alloc::Global;

/// A number in decimal digits.
pub fn read_number(reader: &mut Reader) -> Result<u32, RowError> {
    Ok(u32::try_from(reader.unsigned()?)?)
}

/// A tag in hexadecimal digits.
pub fn read_tag(reader: &mut Reader) -> Result<DeliveryTag, RowError> {
    Ok(DeliveryTag::from(reader.bytes()?))
}

/// Bytes in hexadecimal digits, or their number, a star, and digits that are repeated up to that number.
pub fn read_payload(reader: &mut Reader) -> Result<Payload, RowError> {
    let word = reader.word()?;
    let alloc = reader.alloc();
    let bytes = match word.iter().position(|byte| *byte == b'*') {
        Some(at) => repeated(alloc, &word[..at], &word[at + 1..])?,
        None => bytes_of(alloc, word)?,
    };
    Ok(Payload::from_vec(bytes)?)
}

fn bytes_of(alloc: Global, word: &[u8]) -> Result<Vec<u8>, RowError> {
    parse_bytes(alloc, word)?.ok_or(RowError::NotARow)
}

// The most bytes that a line may ask for by a number.
const MOST_REPEATED: usize = 1 << 20;

fn repeated(alloc: Global, count: &[u8], digits: &[u8]) -> Result<Vec<u8>, RowError> {
    let count = usize::try_from(parse_unsigned(count).ok_or(RowError::NotARow)?)?;
    let unit = bytes_of(alloc, digits)?;
    if unit.is_empty() || count > MOST_REPEATED {
        return Err(RowError::NotARow);
    }
    let mut bytes = Vec::with_capacity(alloc, count)?;
    for at in 0..count {
        bytes.push(unit[at % unit.len()])?;
    }
    Ok(bytes)
}
