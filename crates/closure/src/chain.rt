//! Why an event of a chart comes before a receive, and which other events do.
//!
//! What is promised, unless an allocation is refused:
//!
//! - For an event and a receive: a shortest chain of direct steps from the event to the receive, each with its rule.
//!   There is none exactly if the event isn't before the receive ([`shortest_chain`]).
//! - For a receive: how many first events of each line are its send or come before this send. All events before the
//!   receive are among these, except for receives of its own line from the same sender ([`past`]). These numbers are
//!   the only ones ([`one_past_law`]).

mod chaining;
mod link;
mod reaching;
mod receive_past;

pub use chaining::shortest_chain;
pub use link::{Link, Rule, rule_of};
pub use receive_past::{one_past_law, past};
