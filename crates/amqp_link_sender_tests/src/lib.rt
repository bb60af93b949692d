//! Tests of the sender's link endpoint, through its public interface: worked values.
#![tactic(auto)]

#[cfg(test)]
mod assertions;
#[cfg(test)]
mod attaching;
#[cfg(test)]
mod calls;
#[cfg(test)]
mod exchanging;
#[cfg(test)]
mod flows;
#[cfg(test)]
mod led;
#[cfg(test)]
mod samples;
#[cfg(test)]
mod sending;
#[cfg(test)]
mod table;
