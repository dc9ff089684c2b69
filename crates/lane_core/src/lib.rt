//! A lane between two instances as a pure machine: a bounded ring of slots with one sender and one receiver, which its
//! sender may close. It has two forms, which differ in what the ends read and write of each other: index words and slot
//! words. Each end is a value that determines its next step and the meaning of a loaded word. It holds no message, so
//! messages may be of any type.
//!
//! Promises for every run of the two ends, in any order of their steps ([`every_run`]):
//!
//! - The freed messages are the first of the published ones, in order, and no more wait than there are slots.
//! - No slot is claimed by both ends. Each end fills a slot of its own, or takes a message from one.
//! - After the close nothing is published.
//! - A load finds the lane full exactly if as many messages wait as there are slots. It finds a message exactly if one
//!   waits, and the end exactly if none waits and the lane is closed.
//!
//! Promises for an end that continues alone ([`every_stop`]): a receiver frees exactly the waiting messages, and then
//! finds nothing or the end. A sender on an open lane publishes as many messages as there are free slots, and then
//! finds the lane full.
#![tactic(auto)]

pub mod answers;
pub mod flag_words;
pub mod index_words;
pub mod laws;

pub use laws::{every_run, every_stop};
