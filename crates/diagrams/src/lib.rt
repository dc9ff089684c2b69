//! Sequence diagrams of other tools, and their charts.
//!
//! [`messages`] has the chart of a list of messages.
#![tactic(auto)]

mod built;
mod collecting;
mod crossing;
mod diagram;
mod full;
mod lanes;
mod left_out;
mod losing;
mod message;
pub mod messages;
mod naming;
mod note_event;
mod place;
mod placing;
mod renaming;

pub use built::{BuildError, DiagramChart, build, has_no_chart};
pub use collecting::{Collected, collect};
pub use crossing::{crosses, first_fault, overtakes};
pub use diagram::{Arrow, Diagram, Item, Note, Participant};
pub use full::first_full;
pub use lanes::Lanes;
pub use left_out::{Kind, LeftOut, leave_out};
pub use losing::without_lost;
pub use message::Message;
pub use naming::{name_messages, names_of};
pub use place::Place;
pub use renaming::renamed_labels;
