//! The order of a chart's events if each instance finishes what a message makes it do before it receives again (run to
//! completion).

mod completion;
mod last_sends;
pub mod laws;
mod row;

pub use completion::Completion;
