//! What a race means: another run with the same events and the same causes has the two events in the opposite order.
//!
//! A chart's report states that an order held only by luck. This module states what that means, without clocks and
//! without the search for the enforced order. `specs/OtherRuns/OtherRuns` defines the other runs of a chart's events.
//! Such a run is a legal history with the same messages on each lane and as many receives. In it no event comes before
//! its direct causes.
//!
//! What is promised, for any number of instances:
//!
//! - In each such run, the events that are enforced before an event have come when it has ([`order_law`]).
//! - For each receive of a possible chart there is such a run in which it comes first. At the moment when it has come,
//!   the other events that have come are exactly those that are enforced before it ([`witness_law`]).
//! - So a report lists exactly the earlier events of the line, outside of the receive's coregion, that some such run
//!   has after the receive. One run shows all of them at once ([`real_races_law`]).
//! - The same holds for lanes with a given number of slots. There a receive that frees a slot comes before the send
//!   that takes it. Each such run keeps this order, and each receive comes first in one of them ([`slots_law`]).

pub mod laws;

pub use laws::{order_law, real_races_law, slots_law, witness_law};
