//! A board of instances as a pure machine: the lanes between all pairs of them, over index words, and a recorder for
//! each, in any order of their atomic steps.
//!
//! Promises:
//!
//! - In every run ([`every_run`]) the sends, receives and closes are a legal history, and each lane has passed on what
//!   this history states. The clock of each published message is what its send knows in the history's chart. The
//!   reports of an instance's receives are those of its line's receives. The instance's recorder has this line, what
//!   the instance knows, and these reports.
//! - Each legal history is that of a run ([`every_history`]), so the laws cover everything that is allowed.
//! - Along a lane, the differences between the clocks of its sends, applied in order from zeros, give what each send
//!   knows ([`differences_law`]).
//! - What a lane carries only grows. An instance's next clock changes only by the instance's own events. Known entries
//!   and reports stay as they are ([`goods_law`], [`growth_law`]).
#![tactic(auto)]

pub mod laws;

pub use laws::{differences_law, every_history, every_run, goods_law, growth_law};
