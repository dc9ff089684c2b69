//! Charts of sequence diagrams in which several lines of one process are joined.
//!
//! [`build_joined`] promises this, unless an allocation is refused. Names, chart, skipped constructs and reports are
//! those of a definition over the diagram (`specs/Building`), or the result is the first refusal that applies. The
//! chart is possible. Its messages are those of [`join_lines`] (`specs/Joined`).
//!
//! [`turns`] has the turns of a diagram's rows.
#![tactic(auto)]

mod building;
mod coregions;
mod error;
mod instances;
mod join;
mod joined;
mod moves;
mod rows;
pub mod turns;

pub use building::{JoinedChart, build_joined};
pub use error::JoinError;
pub use join::Join;
pub use joined::{Joined, join_lines};
pub use moves::Overtaking;
