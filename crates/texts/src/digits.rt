//! Numbers in decimal digits.
//!
//! What is promised ([`number_in`], `specs/Digits/Numbers`): the number is a function of the bytes. Bytes that aren't
//! the digits of a number of 32 bits give none.

mod numbers;

pub use numbers::number_in;
