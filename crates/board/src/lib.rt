//! A board on running threads: instances pass messages over lanes without a lock, and each receive reports its races.
//!
//! A [`Board`] gives each instance its [`Post`], which can be moved to a thread. The answer of each call of a post
//! holds in a legal history that begins with all that this post had seen. The post's own events in it are just those
//! that its calls made. A receive gets the first message that waited, or the first of several. Each report is exactly
//! that of the chart of this history. [`Post::send_all`] sends several messages by one store, all of them or none.
//! [`Post::receive_up_to`] receives several by one store. Posts that [`meet`] have then seen one history. At the end
//! [`gather`] takes all posts of a board. It returns the board's chart, its reports, the messages that wait on each
//! lane, and the closed lanes.
//!
//! A post borrows its board's words. A [`Parked`] post is the same post without them: each of its calls takes them as
//! an argument, and [`Parked::wake`] lends them to it again (`specs/Parked.antt`). [`open_parked`] makes a board whose
//! words the caller keeps.
//!
//! `specs/Views.antt` defines what a contract sees of a post. `Sending`, `Taking`, `TakingMany`, `Peeking`, `Closing`,
//! `Meeting` and `Gathering` define what each call answers.
//!
//! Each message carries the entries of its sender's clock that changed since the message before it on the lane (Singhal
//! and Kshemkalyani 1992). Each end keeps the number that it loaded last, and looks again only if that leaves too few
//! slots or too few messages.
//!
//! [`long_runs`] carries over to the next board what a board left.
#![tactic(auto)]

mod answer;
mod board;
mod close;
mod closed_lanes;
mod ends;
mod error;
mod gathering;
pub mod long_runs;
mod meeting;
mod opening;
mod parked;
mod parting;
mod peek;
mod post;
mod receive;
mod receive_up_to;
mod receiving;
mod receiving_several;
mod reserving;
mod room;
mod send;
mod send_all;
mod sending;
mod sending_several;
mod waking;

pub use answer::{Arrival, Peek, Scan, Sent, Stop, Taken, TakenMany};
pub use board::{Board, open_parked};
pub use board_table::{BoardTable, SharedTable};
pub use error::{
    BoardError, CloseError, GatherCause, MeetError, Memory, PostsError, RegionError, SendError,
    TakeError,
};
pub use gathering::{ClosedLane, GatherError, Gathered, Left, gather};
pub use meeting::{are_all, meet, meet_all, meet_at, place_of};
pub use parked::Parked;
pub use post::Post;
pub use waking::{park_all, wake_all};
