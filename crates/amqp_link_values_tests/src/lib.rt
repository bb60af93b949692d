//! Tests of the values and the payloads through their public interface: what no clause states.
#![tactic(auto)]

#[cfg(test)]
mod assertions;
#[cfg(test)]
mod messages;
#[cfg(test)]
mod positions;
#[cfg(test)]
mod values;
