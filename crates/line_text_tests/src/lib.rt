//! Tests of lines and words, by what their crate makes public: values from outside.
#![tactic(auto)]

#[cfg(test)]
mod lines;
