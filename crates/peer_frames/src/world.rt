//! What each step of a run has at hand.
use crate::random::Random;
use crate::reached::Reached;
use crate::tags::all_tags;
use amqp_link_types::types::DeliveryTag;
use std::alloc::{AllocError, Global};

/// What each step of a run has at hand.
#[derive(Drop)]
pub struct World {
    /// The allocator.
    pub alloc: Global,
    /// The numbers that decide.
    pub random: Random,
    /// The tags that deliveries have.
    pub tags: Vec<DeliveryTag>,
    /// How many frames of 100 are not as a correct peer sends them.
    pub mischief: u32,
    /// What was reached.
    pub reached: Reached,
}

impl World {
    /// The beginning of the run with this seed.
    pub fn new(alloc: Global, seed: u64) -> Result<World, AllocError> {
        let tags = all_tags(alloc)?;
        Ok(World {
            alloc,
            random: Random::new(seed),
            tags,
            mischief: 0,
            reached: Reached::nothing(),
        })
    }

    /// Whether something goes wrong now.
    pub fn goes_wrong(&mut self) -> bool {
        let often = self.mischief;
        self.random.in_hundred(often)
    }

    /// A tag that a delivery may have.
    pub fn tag(&mut self) -> Result<DeliveryTag, AllocError> {
        let place = self.random.place(self.tags.len());
        match self.tags.get(place) {
            Some(tag) => tag.clone(),
            None => DeliveryTag::copied(self.alloc, &[]),
        }
    }
}
