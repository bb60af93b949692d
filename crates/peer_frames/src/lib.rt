//! The frames of peers that are wrong or hostile.
//!
//! A peer's frame is made as a correct peer sends it, and then changed: any numbers, tags, flags, states, modes, termini and
//! unsettled maps. On its way it is lost, doubled, or changes places with the next one. All is decided by a seed.
//!
//! `random` has the numbers, `values` and `termini` what frames carry, `frames` and `transfers` the frames, `mischief` the
//! changes, `wire` the frames under way, `session` what a session knows of deliveries; `world` holds what each step has at
//! hand, and `reached` counts what has happened.
#![tactic(auto)]

pub mod frames;
pub mod mischief;
pub mod peer_frame;
pub mod random;
pub mod reached;
pub mod session;
pub mod tags;
pub mod termini;
pub mod transfers;
pub mod values;
pub mod wire;
pub mod world;
