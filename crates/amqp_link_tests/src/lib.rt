//! Tests by what `amqp_link` makes public: of a pair worked values, the smallest limits, refused growths and lists of
//! calls; of a credit run worked values, a refused growth and a walk; what an application sends, copies and makes of an
//! outcome; and refusals of links by their names.
#![tactic(auto)]

#[cfg(test)]
mod assertions;
#[cfg(test)]
mod credit;
#[cfg(test)]
mod deliveries;
#[cfg(test)]
mod interrupted;
#[cfg(test)]
mod limits;
#[cfg(test)]
mod pair;
#[cfg(test)]
mod refusals;
#[cfg(test)]
mod runs;
#[cfg(test)]
mod script;
