//! Tests of the receiver's link endpoint, through its public interface: worked values.
#![tactic(auto)]

#[cfg(test)]
mod arriving;
#[cfg(test)]
mod assertions;
#[cfg(test)]
mod attaching;
#[cfg(test)]
mod completing;
#[cfg(test)]
mod samples;
#[cfg(test)]
mod table;
