//! Tests of a ledger round a sender, by what it makes public: worked values.
#![tactic(auto)]

#[cfg(test)]
mod assertions;
#[cfg(test)]
mod batches;
#[cfg(test)]
mod calls;
#[cfg(test)]
mod exchanging;
#[cfg(test)]
mod fates;
#[cfg(test)]
mod growth;
#[cfg(test)]
mod ledgers;
#[cfg(test)]
mod many;
#[cfg(test)]
mod parts;
#[cfg(test)]
mod releasing;
#[cfg(test)]
mod resolving;
#[cfg(test)]
mod samples;
#[cfg(test)]
mod sending;
#[cfg(test)]
mod shown;
