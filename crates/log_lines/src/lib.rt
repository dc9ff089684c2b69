//! Logs of messages: the meaning of their lines.
//!
//! What is promised, unless an allocation is refused: the result of reading a log is a function of its bytes. It has
//! the events in the order of the lines, each with its place, and how many lines aren't read. This holds for the log of
//! an application ([`read_plain`]), and for one for ShiViz ([`read_shiviz`], [`by_words`]).
//!
//! [`names`] names the hosts and messages of the lines, and [`takes`] reads what each receive would have taken.
#![tactic(auto)]

mod clock_line;
mod event;
pub mod names;
mod plain;
mod plain_reading;
mod range;
mod read;
mod shiviz;
mod step;
pub mod takes;
mod windows;
mod worded;
mod words;

pub use event::{Act, Clocked, ClockedAt, Event, LineSays, LoggedEvent, Place};
pub use plain::{Direction, begins_rest, behind_preposition, direction_of, id_in};
pub use plain_reading::read_plain;
pub use range::{LineRange, is_within};
pub use read::{Others, Read, one_more};
pub use shiviz::read_shiviz;
pub use step::Step;
pub use windows::window;
pub use worded::by_words;
pub use words::words_of;
