//! The values that a frame carries.
use crate::world::World;
use amqp_link_types::types::{
    Boxed, DeliveryState, Error, Fields, Payload, ReceiverSettleMode, SenderSettleMode, Symbol,
    Symbols, Text, UnsettledMap, Value,
};
use std::alloc::{AllocError, Global};

// The longest payload in bytes.
const LONGEST: u32 = 120;

/// A text of these words.
pub fn text(alloc: Global, words: &str) -> Result<Text, AllocError> {
    Ok(Text::from(String::from_str(alloc, words)?))
}

fn symbol(alloc: Global, words: &str) -> Result<Symbol, AllocError> {
    Ok(Symbol::from(String::from_str(alloc, words)?))
}

fn name_at(place: u32) -> &'static str {
    match place {
        0 => "a",
        1 => "b",
        _ => "a longer name of a field",
    }
}

/// Up to two fields.
pub fn fields(world: &mut World) -> Result<Fields, AllocError> {
    let alloc = world.alloc;
    let mut fields = Fields::new(alloc);
    for _ in 0..world.random.below(3) {
        let name = symbol(alloc, name_at(world.random.below(3)))?;
        let number = Value::Uint(world.random.absurd());
        drop(fields.insert(name, number)?);
    }
    Ok(fields)
}

/// Fields, or none.
pub fn fields_or_none(world: &mut World) -> Result<Option<Fields>, AllocError> {
    if world.random.in_hundred(75) {
        return Ok(None);
    }
    Ok(Some(fields(world)?))
}

/// Symbols, or none.
pub fn symbols_or_none(world: &mut World) -> Result<Option<Symbols>, AllocError> {
    if world.random.in_hundred(90) {
        return Ok(None);
    }
    let mut symbols = Vec::new(world.alloc);
    symbols.push(symbol(world.alloc, "a-capability")?)?;
    Ok(Some(Symbols::from(symbols)))
}

fn description(world: &mut World) -> Result<Option<Text>, AllocError> {
    if world.random.flag() {
        return Ok(None);
    }
    Ok(Some(text(world.alloc, "why it failed")?))
}

/// An error.
pub fn error(world: &mut World) -> Result<Error, AllocError> {
    let condition = symbol(world.alloc, "amqp:internal-error")?;
    let description = description(world)?;
    let info = fields_or_none(world)?;
    Ok(Error {
        condition,
        description,
        info,
    })
}

/// An error, or none.
pub fn error_or_none(world: &mut World) -> Result<Option<Error>, AllocError> {
    if world.random.in_hundred(60) {
        return Ok(None);
    }
    Ok(Some(error(world)?))
}

fn boxed<T: Drop>(alloc: Global, value: Option<T>) -> Result<Option<Boxed<T>>, AllocError> {
    match value {
        Some(value) => Ok(Some(Boxed::new(alloc, value)?)),
        None => Ok(None),
    }
}

fn rejected(world: &mut World) -> Result<DeliveryState, AllocError> {
    let error = error_or_none(world)?;
    Ok(DeliveryState::Rejected {
        error: boxed(world.alloc, error)?,
    })
}

fn modified(world: &mut World) -> Result<DeliveryState, AllocError> {
    let annotations = fields_or_none(world)?;
    Ok(DeliveryState::Modified {
        delivery_failed: world.random.flag_or_none(),
        undeliverable_here: world.random.flag_or_none(),
        message_annotations: boxed(world.alloc, annotations)?,
    })
}

// A position, which may be anywhere.
fn received(world: &mut World) -> DeliveryState {
    let random = &mut world.random;
    let (section_number, section_offset) = match random.below(3) {
        0 => (0, u64::from(random.below(LONGEST))),
        1 => (random.below(4), u64::from(random.below(LONGEST))),
        _ => (random.absurd(), random.long_absurd()),
    };
    DeliveryState::Received {
        section_number,
        section_offset,
    }
}

/// A state that ends a delivery.
pub fn outcome(world: &mut World) -> Result<DeliveryState, AllocError> {
    match world.random.below(6) {
        0 => rejected(world),
        1 => Ok(DeliveryState::Released),
        2 => modified(world),
        _ => Ok(DeliveryState::Accepted),
    }
}

/// Any state.
pub fn state(world: &mut World) -> Result<DeliveryState, AllocError> {
    if world.random.in_hundred(30) {
        return Ok(received(world));
    }
    outcome(world)
}

/// Any state, or none.
pub fn state_or_none(world: &mut World) -> Result<Option<DeliveryState>, AllocError> {
    if world.random.in_hundred(20) {
        return Ok(None);
    }
    Ok(Some(state(world)?))
}

/// A copy of a state, if there is one.
pub fn copy_of(state: &Option<DeliveryState>) -> Result<Option<DeliveryState>, AllocError> {
    match state {
        Some(state) => Ok(Some(state.clone()?)),
        None => Ok(None),
    }
}

/// When a sender settles.
pub fn sender_mode(world: &mut World) -> SenderSettleMode {
    match world.random.below(10) {
        0 => SenderSettleMode::Settled,
        1..=3 => SenderSettleMode::Unsettled,
        _ => SenderSettleMode::Mixed,
    }
}

/// When a receiver settles.
pub fn receiver_mode(world: &mut World) -> ReceiverSettleMode {
    if world.random.in_hundred(30) {
        ReceiverSettleMode::Second
    } else {
        ReceiverSettleMode::First
    }
}

/// When a receiver settles a delivery, if a transfer says it.
pub fn receiver_mode_or_none(world: &mut World) -> Option<ReceiverSettleMode> {
    if world.random.in_hundred(70) {
        return None;
    }
    Some(receiver_mode(world))
}

// Bytes of no message.
fn any_bytes(world: &mut World, len: u32) -> Result<Vec<u8>, AllocError> {
    let mut bytes = Vec::new(world.alloc);
    for _ in 0..len {
        bytes.push((world.random.below(256)) as u8)?;
    }
    Ok(bytes)
}

// A data section of this many bytes (3.2.6), fewer than 256.
fn section(world: &mut World, len: u32) -> Result<Vec<u8>, AllocError> {
    let mut bytes = Vec::new(world.alloc);
    for byte in [0x00, 0x53, 0x75, 0xa0] {
        bytes.push(byte)?;
    }
    bytes.push((len % 256) as u8)?;
    for _ in 0..len {
        bytes.push((world.random.below(256)) as u8)?;
    }
    Ok(bytes)
}

/// The bytes of a delivery, or of a part of one: a data section, or any bytes, or none.
pub fn payload(world: &mut World) -> Result<Payload, AllocError> {
    let bytes = match world.random.below(10) {
        0 => return Ok(Payload::new()),
        1..=4 => {
            let len = world.random.below(LONGEST);
            section(world, len)?
        }
        _ => {
            let len = world.random.below(LONGEST);
            any_bytes(world, len)?
        }
    };
    let payload = Payload::copy_from_slice(world.alloc, bytes.as_slice())?;
    drop(bytes);
    Ok(payload)
}

/// Puts up to two deliveries of any tags in any states into a map.
pub fn put_any(
    world: &mut World,
    map: &mut UnsettledMap<Option<DeliveryState>>,
) -> Result<(), AllocError> {
    for _ in 0..world.random.below(3) {
        let tag = world.tag()?;
        let state = state_or_none(world)?;
        drop(map.put(tag, state)?);
    }
    Ok(())
}
