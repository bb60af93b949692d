//! Tests of both link endpoints beside each other: their dispositions, the runs in which these name deliveries,
//! and a caller that works at either endpoint and is proved from the traits alone (OASIS AMQP 1.0 core, 2.6).
#![tactic(auto)]

#[cfg(test)]
mod assertions;
#[cfg(test)]
mod crossing;
#[cfg(test)]
mod dispositions;
#[cfg(test)]
mod frames;
#[cfg(test)]
mod generic;
#[cfg(test)]
mod runs;
#[cfg(test)]
mod samples;
