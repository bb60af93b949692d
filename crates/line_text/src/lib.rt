//! Lines of text and the values of their words: numbers in decimal digits, bytes in hexadecimal ones.
#![tactic(auto)]

mod digits;
pub mod hex;
pub mod line;
pub mod number;
pub mod streams;
