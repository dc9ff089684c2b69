//! Another run with the same events and causes, in which a receive comes before an event that it came after.
//!
//! A run is a list of steps. Take a run whose lanes have a given number of slots, and a receive in it. The steps that
//! have to come with the receive are found from the last step to the first. The new run has these steps first and then
//! the others, each in its earlier order. The time for each step is constant.
//!
//! What is promised, unless an allocation is refused: the answer is a run over the same slots in which the receive
//! overtakes the event, or that there is none. If there is none, the event is the receive, or before it with this
//! number of slots. Then no such run has them in the opposite order (`crate::other_runs::slots_law`). The new run has
//! first the receive and the events before it in this sense, and then the others, both in their earlier order.

mod counts;
mod needs;
mod numbered;
mod overtaking;
mod parting;

pub use counts::Counts;
pub use numbered::Passed;
pub use overtaking::overtake;
