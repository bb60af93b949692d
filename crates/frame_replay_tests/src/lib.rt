//! Tests of replays of frames, through what is public: what no clause states.
#![tactic(auto)]

#[cfg(test)]
mod replays;
