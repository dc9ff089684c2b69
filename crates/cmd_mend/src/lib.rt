//! What `mscview mend` does with the bytes of a file: the chart with one message more in which a race is gone, or why
//! there is none; or the chart with all messages by which its races go.
//!
//! What is promised of [`mend`]: the bytes of the file, the two events and the name decide the output's bytes.
//!
//! - With status 0 exactly the text of the chart with one message more was written, and on standard error where it is
//!   and which races go, stay and come: each range of them, or the first ranges and counts. Or nothing was written,
//!   where the pair is enforced already, by the chain on standard error, or where a coregion hides it.
//! - With status 1 nothing was written: no message between the two instances makes the race go, and standard error
//!   says why.
//! - With status 2 the refusal's line was written to standard error, or a beginning of it where that failed, and
//!   nothing went to the output before it, unless a write failed (F24).
//!
//! Of [`mend_all`]: exactly the text of the chart was written with the messages that `mend_all` adds, and they are
//! listed on standard error. With status 0 no race is left, and with status 1 some are. It tries no more race pairs
//! than it may, and reports where it stops for that. It may be asked to mend and count only some of the races, and
//! [`mend_all_luck`] mends and counts only those that were luck. With status 3 none of a log's races is claimed
//! ([`logs::mend_luck_of_log`]).
#![tactic(auto)]

mod answering;
mod brief;
mod brief_text;
mod change;
mod change_text;
mod claims;
mod error;
pub mod laws;
pub mod logs;
mod naming;
mod outcomes;
mod showing;
mod showing_all;
mod word;

pub use brief::SHOWN_LINES;
pub use error::MendRefusal;
pub use showing::{Detail, Wanted, mend, mend_of_source};
pub use showing_all::{TRIED_IN_ALL, WantedAll, mend_all, mend_all_luck};
