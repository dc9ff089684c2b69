//! Texts about the lines of a log and about its expression: why a match isn't read, how many lines are of a kind, and
//! what is wrong with the expression.
//!
//! Each call adds exactly the text that its contract states. If a put fails, it has added a beginning of this text.
//! Only [`first_shown`] takes memory, for a word of the log.
#![tactic(auto)]

mod counts;
mod faults;
mod spot;
mod unread;

pub use counts::{add_others, add_others_of};
pub use faults::{add_fault, group_word};
pub use spot::{Spot, spot_of};
pub use unread::{UnreadLine, add_unread, first_shown};
