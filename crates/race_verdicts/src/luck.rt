//! Verdicts on the races of a recording: which of them were luck.
//!
//! A race of a log's chart states that a receive's message could have come before an earlier event of its line. It was
//! luck if the program didn't choose the order, and the earlier receive would have had this message next. What is
//! promised, unless an allocation is refused ([`Judge::of`]):
//!
//! - Each receive and each earlier event of its line have a verdict: the first of the reasons below that holds, or luck
//!   ([`Judge::verdict`]).
//! - The verdict on the first of some neighbouring earlier events comes with a count of the events that have it, from
//!   the first on. If the receive is begun in the middle, all have it. Otherwise these are the neighbours of one kind
//!   ([`Judge::verdict_of_first`]).
//! - The verdict depends only on the recording and the chart's enforced order: a pair has one verdict
//!   ([`one_verdict_law`]).
//! - Luck means that some run of the chart's events has a moment at which the earlier receive could have had the
//!   message ([`luck_law`]).
//!
//! The reasons why a race was no luck are, in this order:
//!
//! 1. The earlier event or the message's send is invented, or an invented send comes before the receive.
//! 2. The earlier event is a send.
//! 3. The order of the whole log, with the messages that the chart omits, puts the earlier event before the message's
//!    send.
//! 4. The earlier receive would not take the message.
//! 5. The earlier receive passed the message over.
//! 6. The message is behind another one.

mod arrivals;
mod invented;
mod judge;
mod lanes;
mod law;
mod lines;
mod marks;
mod order;
mod queues;
mod runs;
mod tables;
mod taking;

pub use judge::{Judge, one_verdict_law};
pub use law::luck_law;
