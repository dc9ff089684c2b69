//! Logs with lines that come before themselves, and the receives that are freed so that none does.
//!
//! Promises of [`settle`], unless an allocation is refused: each turn frees one receive of those that take a send of
//! the log and come before themselves. It is one of the host with the least name, byte by byte, and of this host the
//! first. The log is then paired anew, until there is no such receive. Which receive is freed doesn't depend on the
//! order between the lines of several hosts ([`freeing_law`]).
//!
//! If each lane to a host has one stream, one walk along the host's line frees all of its receives that turns free.
//!
//! Other searches of a log can use the tables of what is directly before each line ([`sources_of`]).

mod first;
mod laws;
mod past;
mod plain;
mod searches;
mod settling;
mod sources;
mod turns;

pub use laws::freeing_law;
pub use settling::settle;
pub use sources::{Sources, sources_of};
