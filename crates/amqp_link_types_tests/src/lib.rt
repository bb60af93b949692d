//! Tests of the types and of the flow states through their public interface: what no clause states.
#![tactic(auto)]

#[cfg(test)]
mod assertions;
#[cfg(test)]
mod copies;
#[cfg(test)]
mod delivery;
#[cfg(test)]
mod samples;
#[cfg(test)]
mod state;
#[cfg(test)]
mod types;
