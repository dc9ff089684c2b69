//! Tests of hostile use, through public items: refused growths in worked schedules, ends that stop, and posts that are
//! dropped.
//!
//! They are in a crate of their own, since a crate with tests is proved twice.
#![tactic(auto)]

#[cfg(test)]
mod callers;
#[cfg(test)]
mod calls;
#[cfg(test)]
mod dropped_posts;
#[cfg(test)]
mod gathering;
#[cfg(test)]
mod growths;
#[cfg(test)]
mod left_messages;
#[cfg(test)]
mod moving_partners;
#[cfg(test)]
mod nothing;
#[cfg(test)]
mod replays;
#[cfg(test)]
mod room;
#[cfg(test)]
mod schedules;
#[cfg(test)]
mod searches;
