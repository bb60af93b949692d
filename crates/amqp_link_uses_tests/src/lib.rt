//! Each caller of `amqp_link_uses` runs.
#![tactic(auto)]

#[cfg(test)]
mod assertions;
#[cfg(test)]
mod broker;
#[cfg(test)]
mod broker_reattached;
#[cfg(test)]
mod client;
#[cfg(test)]
mod consumer;
#[cfg(test)]
mod listed;
#[cfg(test)]
mod peer;
#[cfg(test)]
mod reattached;
#[cfg(test)]
mod relay;
#[cfg(test)]
mod samples;
#[cfg(test)]
mod script;
#[cfg(test)]
mod seen;
#[cfg(test)]
mod short;
