//! The offline checker: whether a chart is possible, which events the enforced order puts before others, and the races
//! of each receive. It searches backwards over the pairs that are enforced directly (the order of Alur, Holzmann, Peled
//! 1996, in this project's profile). It reads no clock, so it checks results that were found with clocks.
//!
//! What is promised, unless an allocation is refused:
//!
//! - A chart is accepted exactly if it is possible. Otherwise the answer is the first receive, by instance and index,
//!   that has no send or a send with another name. If there is no such receive, the answer is that the order has a
//!   cycle ([`Closure::of`]).
//! - For any two events: whether the first is before the second. The answer is false if one of them isn't in the chart
//!   ([`Closure::before`]).
//! - The send of a receive ([`Closure::send_of`]), and for each line how many of its first events are a send or before
//!   it ([`Closure::up_to`]).
//! - The reports of all receives, by instance and index ([`Closure::races`]), or one after another without memory
//!   ([`Closure::reporter`]).
//! - An audit accepts exactly this list, for a possible chart. Otherwise it names the first place where the lists
//!   differ ([`audit`]).
//!
//! [`chain`] shows why an event comes before a receive, and [`cycle`] why a chart is cyclic.
#![tactic(auto)]

pub mod chain;
mod checking;
mod closure;
pub mod cycle;
mod error;
mod knowing;
mod linked;
mod linking;
mod numbers;
mod order;
mod partner;
mod past;
mod reporting;
mod row;
mod running;
mod search;

pub use checking::audit;
pub use closure::Closure;
pub use error::{AuditError, ChartError};
pub use numbers::Numbers;
pub use reporting::Reporter;
