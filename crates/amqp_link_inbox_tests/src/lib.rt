//! An inbox and a peer whose frames are written by hand: what each call returns, and what the link states and may still take
//! after it.
#![tactic(auto)]

#[cfg(test)]
mod assertions;
#[cfg(test)]
mod faults;
#[cfg(test)]
mod interrupted;
#[cfg(test)]
mod lists;
#[cfg(test)]
mod script;
