//! Logs that are read by an expression, in the syntax of Rust's regex crate.
//!
//! Promises, unless an allocation is refused:
//!
//! - What is read of a log is a function of its bytes and of the expression's groups ([`read_by`]).
//! - So is how its receives were chosen ([`observed_by`]), and which line is the first that matches and isn't read,
//!   with the reason ([`first_unread`]).
//!
//! Which lines match and what their groups span is taken from the contracts of the crate `regex`.

mod expression;
mod feeds;
mod found;
mod groups;
mod host_event;
mod missing;
mod observing;
mod pattern_reading;
mod search;
mod unread;
mod unread_lines;

pub use expression::{BadExpression, Expression, Fault};
pub use groups::{CaptureGroups, ClockGroups, EventGroups, Groups};
pub use missing::Group;
pub use observing::observed_by;
pub use pattern_reading::read_by;
pub use unread::Unread;
pub use unread_lines::{UnreadLine, first_unread};
