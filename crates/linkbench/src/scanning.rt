//! Positions of payloads.
use crate::measured::Work;
use crate::payloads::{Kind, payload_of};
use crate::refused::{Refused, done};
use amqp_link::position::{PositionCarry, position_of};
use amqp_link::types::Payload;
use std::alloc::Global;
use std::array;

/// A payload is scanned, as it is when it arrives.
#[derive(Drop)]
pub struct Scanning {
    payload: Payload,
    count: u32,
}

impl Scanning {
    /// So many scans of a payload of this kind and length.
    pub fn ready(
        alloc: Global,
        kind: Kind,
        length: usize,
        count: u32,
    ) -> Result<Scanning, Refused> {
        let payload = payload_of(alloc, kind, length)?;
        Ok(Scanning { payload, count })
    }
}

impl Work for Scanning {
    fn perform(&mut self) -> Result<u64, Refused> {
        let mut positions = 0u64;
        for _ in 0..self.count {
            let mut carry = PositionCarry::new();
            done(carry.push(&self.payload))?;
            let (number, offset) = carry.position();
            positions = positions
                .wrapping_add(offset)
                .wrapping_add(u64::from(number));
        }
        Ok(positions)
    }
}

/// The position of a list of pieces is computed anew.
#[derive(Drop)]
pub struct Positioning {
    payload: Payload,
    count: u32,
}

impl Positioning {
    /// So many positions of a payload of text of this length.
    pub fn ready(alloc: Global, length: usize, count: u32) -> Result<Positioning, Refused> {
        let payload = payload_of(alloc, Kind::Text, length)?;
        Ok(Positioning { payload, count })
    }
}

impl Work for Positioning {
    fn perform(&mut self) -> Result<u64, Refused> {
        let mut positions = 0u64;
        for _ in 0..self.count {
            let Some((number, offset)) = position_of(array::from_ref(&self.payload)) else {
                return Err(Refused);
            };
            positions = positions
                .wrapping_add(offset)
                .wrapping_add(u64::from(number));
        }
        Ok(positions)
    }
}
