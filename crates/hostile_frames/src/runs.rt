//! Runs of lives.
use crate::broken::Broken;
use amqp_link_state::state::LinkState;
use hostile_receivers::ReceiverLife;
use hostile_senders::SenderLife;
use link_checks::Stop;
use peer_frames::reached::{Reached, count_one};
use peer_frames::world::World;
use std::alloc::{AllocError, Global};

// A life has so many frames, and up to so many more.
const FEWEST: u32 = 10;

const MORE: u32 = 120;

// No more frames come once the link is closed.
const AFTER_CLOSE: u32 = 4;

// The endpoint of a life.
#[derive(Drop)]
enum Endpoint {
    Sender(SenderLife),
    Receiver(ReceiverLife),
}

// A life of a link endpoint, with how many frames it is still to take, and how many it has taken.
#[derive(Drop)]
struct Life {
    endpoint: Endpoint,
    left: u32,
    frame: u64,
}

impl Life {
    fn new(world: &mut World) -> Result<Life, AllocError> {
        count_one(&mut world.reached.lives);
        world.mischief = match world.random.below(4) {
            0 => 0,
            1 => 5,
            2 => 15,
            _ => 30,
        };
        let left = FEWEST.saturating_add(world.random.below(MORE));
        Ok(Life {
            endpoint: new_endpoint(world)?,
            left,
            frame: 0,
        })
    }

    // Whether it has taken all its frames.
    fn is_over(&self) -> bool {
        self.left == 0
    }

    // The user makes up to four calls, and then a frame of the peer arrives.
    fn step(&mut self, world: &mut World) -> Result<(), Stop> {
        self.count_frame(world);
        for _ in 0..world.random.below(5) {
            self.call(world)?;
        }
        match &mut self.endpoint {
            Endpoint::Sender(sender) => sender.take_frame(world),
            Endpoint::Receiver(receiver) => receiver.take_frame(world),
        }
    }

    // One frame more is taken. Once the link is closed, a few follow.
    fn count_frame(&mut self, world: &mut World) {
        self.left = self.left.saturating_sub(1);
        if self.state() == LinkState::Closed {
            self.left = self.left.min(AFTER_CLOSE);
        }
        count_one(&mut self.frame);
        count_one(&mut world.reached.frames);
    }

    fn state(&self) -> LinkState {
        match &self.endpoint {
            Endpoint::Sender(sender) => sender.state(),
            Endpoint::Receiver(receiver) => receiver.state(),
        }
    }

    fn call(&mut self, world: &mut World) -> Result<(), Stop> {
        match &mut self.endpoint {
            Endpoint::Sender(sender) => sender.call(world),
            Endpoint::Receiver(receiver) => receiver.call(world),
        }
    }
}

fn new_endpoint(world: &mut World) -> Result<Endpoint, AllocError> {
    if world.random.flag() {
        count_one(&mut world.reached.senders);
        return Ok(Endpoint::Sender(SenderLife::new(world)?));
    }
    Ok(Endpoint::Receiver(ReceiverLife::new(world)?))
}

// Why a run has ended in this life.
fn broken_in(world: &World, life: &Life, stop: Stop) -> Broken {
    match stop {
        Stop::Failed(check) => Broken::Failed {
            check,
            life: world.reached.lives,
            frame: life.frame,
        },
        Stop::OutOfMemory => Broken::OutOfMemory,
    }
}

// Makes the steps of a run.
fn run_in(world: &mut World, frames: u64) -> Result<(), Broken> {
    let Ok(mut life) = Life::new(world) else {
        return Err(Broken::OutOfMemory);
    };
    for _ in 0..frames {
        if life.is_over() {
            life = match Life::new(world) {
                Ok(next) => next,
                Err(AllocError) => return Err(Broken::OutOfMemory),
            };
        }
        if let Err(stop) = life.step(world) {
            return Err(broken_in(world, &life, stop));
        }
    }
    Ok(())
}

/// Makes lives of links from frames that no correct peer need have sent, as this seed decides, with so many frames in all, and
/// checks after each call what no contract of a single call says. Returns what was reached: the same seed and number reach the
/// same.
///
/// Refused at the first check that fails, with where it has failed; or if it is out of memory.
pub fn run(alloc: Global, seed: u64, frames: u64) -> Result<Reached, Broken> {
    let Ok(mut world) = World::new(alloc, seed) else {
        return Err(Broken::OutOfMemory);
    };
    let ran = run_in(&mut world, frames);
    let reached = world.reached;
    drop(world);
    match ran {
        Ok(()) => Ok(reached),
        Err(broken) => Err(broken),
    }
}
