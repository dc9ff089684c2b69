//! Vector time: a clock has one entry for each instance, the number of the instance's events that are known (Fidge
//! 1988, Mattern 1989).
//!
//! Promises:
//!
//! - A merge is the entrywise maximum ([`Clock::merge`]).
//! - A stamp changes one entry, in a copy or in place ([`Clock::stamped`], [`Clock::stamp`]). It can also make the
//!   difference for this change ([`Clock::stamp_over`]).
//! - A difference has exactly the entries that differ ([`Clock::diff_from`], in place [`Clock::diff_into`]). Applied
//!   to its base it gives the clock back ([`Clock::apply`]). Both can be done in one pass ([`Clock::diff_over`]). An
//!   entry after a difference can be read before it is applied ([`Clock::entry_after`]).
//! - No call on a clock of at most [`INLINE_ENTRIES`] entries is refused or takes memory. A clock of more entries takes
//!   memory when it is made, and so does a difference of more changes.
#![tactic(auto)]

mod clock;
mod diff;
mod entries;
mod stamping;

pub use clock::{Clock, INLINE_ENTRIES};
pub use diff::{Change, Diff};
