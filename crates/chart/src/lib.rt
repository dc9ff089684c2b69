//! Message sequence charts: instances, names, messages, events, lines and charts, each within its limits.
//!
//! `specs/` has the definitions that every promise of this repository cites: histories (`Histories`), the chart of a
//! history (`Charts`), the enforced order (`Order`) and reports (`Reports`).
//!
//! What is promised:
//!
//! - A name is 1 to 32 bytes by the stated rules. Other bytes are refused with their first fault ([`Name::new`]).
//! - A line grows by exactly the event that is pushed. It refuses a message to its own instance (F13), then one event
//!   too many (F7), then an event for which there is no memory (F6). A refusal leaves it as it was
//!   ([`GrowingLine::push`], [`GrowingLine::push_sends`]). Events for which it has room take no memory
//!   ([`GrowingLine::reserve`]).
//! - A chart has 2 to 32 lines, and the partner of each event exists. Other lines come back with their fault
//!   ([`Chart::new`]).
//! - Names are added and looked up as in a list ([`Names::add`], [`Names::instance`], [`Names::name`]).
//! - [`laws`] states what holds of the definitions, for any number of instances. A receive's report can be read off its
//!   line and one number (`report_law`). The chart of a legal history has a send for each receive, and no cycle
//!   (`legal_law`). Later occurrences change nothing of it (`growth_law`).
//!
//! [`line_events`] reads the events of lines by their numbers. [`run_steps`] has the steps of a run. [`stable_order`]
//! defines the order of things by a number that each of them has.
#![tactic(auto)]

mod chart;
mod event;
mod growing_line;
pub mod history;
mod instance;
mod keyword;
pub mod laws;
mod line;
pub mod line_events;
mod message;
mod message_names;
mod name;
mod names;
mod ranges;
mod report;
pub mod run_steps;
pub mod stable_order;

pub use chart::{Chart, LinesError};
pub use event::Event;
pub use growing_line::GrowingLine;
pub use history::MAX_CAPACITY;
pub use instance::{EventNo, InstanceNo, MAX_INSTANCES};
pub use keyword::Keyword;
pub use line::{Line, LineError, MAX_EVENTS};
pub use message::{MAX_BODY, Message};
pub use name::{MAX_NAME, Name, NameError};
pub use names::{Names, NamesError};
pub use ranges::{EventRange, EventRanges, Events, RangesBuilder};
pub use report::{Report, has_races};
