//! The lines of a log, with names for hosts and messages as in a chart.
//!
//! What is promised ([`named`]), unless an allocation is refused: different hosts have different names, and so have
//! different messages. Ids are numbered. A message of a host to itself is skipped and counted. All of these are
//! functions of the log's events (`specs/Names/Naming`).

mod hosts;
mod ids;
mod line;
mod naming;

pub use hosts::{Peer, host_of};
pub use ids::Ids;
pub use line::NamedLine;
pub use naming::{NamedLog, named};
