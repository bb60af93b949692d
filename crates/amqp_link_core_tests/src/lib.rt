//! Tests of the core through its public interface: what no clause states.
#![tactic(auto)]

#[cfg(test)]
mod assertions;
#[cfg(test)]
mod attached;
#[cfg(test)]
mod incomplete_transfer;
#[cfg(test)]
mod positions_kept;
#[cfg(test)]
mod positions_searched;
