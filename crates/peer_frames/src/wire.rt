//! The frames of a peer that are under way.
use crate::peer_frame::PeerFrame;
use crate::world::World;
use std::alloc::{AllocError, Global};
use std::collections::VecDeque;

// No more frames are under way.
const LONGEST: usize = 64;

/// The frames of a peer that are under way, in their order.
#[derive(Drop)]
pub struct Wire {
    frames: VecDeque<PeerFrame>,
}

impl Wire {
    /// None.
    pub fn new(alloc: Global) -> Wire {
        Wire {
            frames: VecDeque::new(alloc),
        }
    }

    /// How many frames there are.
    pub fn len(&self) -> usize {
        self.frames.len()
    }

    /// The peer sends a frame. It is lost if too many are under way.
    pub fn push(&mut self, frame: PeerFrame) -> Result<(), AllocError> {
        if self.frames.len() >= LONGEST {
            drop(frame);
            return Ok(());
        }
        self.frames.push_back(frame)?;
        Ok(())
    }

    /// All frames are lost.
    pub fn clear(&mut self) {
        self.frames.clear();
    }

    /// The next frame that arrives. If it goes wrong, that is the one after it, or it arrives once more, or the next two change
    /// their places.
    pub fn next(&mut self, world: &mut World) -> Result<Option<PeerFrame>, AllocError> {
        if !world.goes_wrong() {
            return Ok(self.frames.pop_front());
        }
        match world.random.below(3) {
            0 => {
                drop(self.frames.pop_front());
                Ok(self.frames.pop_front())
            }
            1 => self.doubled(),
            _ => self.second(),
        }
    }

    // The first frame, which arrives again.
    fn doubled(&mut self) -> Result<Option<PeerFrame>, AllocError> {
        match self.frames.front() {
            Some(frame) => Ok(Some(frame.clone()?)),
            None => Ok(None),
        }
    }

    // The second frame, before the first; the first, if it is the only one.
    fn second(&mut self) -> Result<Option<PeerFrame>, AllocError> {
        let Some(first) = self.frames.pop_front() else {
            return Ok(None);
        };
        let Some(second) = self.frames.pop_front() else {
            return Ok(Some(first));
        };
        match self.frames.push_front(first) {
            Ok(()) => Ok(Some(second)),
            Err(refused) => {
                drop((refused, second));
                Err(AllocError)
            }
        }
    }
}
