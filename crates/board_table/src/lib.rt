//! The table of a running board: its words and slots, what each seat at it knows, the rule that all of it keeps, and
//! the steps of both ends of a lane.
//!
//! For what other threads do, the board's posts rely only on this crate. A post holds a [`Seat`], a token of no bytes.
//! The seat's contract has the history that the post has seen, and the post's own events in it. It also has how often
//! the post looked at a partner's word. There is always one legal history that begins with each seen history, has just
//! its own events for each post, and agrees with all words. This holds for any words, for any contents of the slots at
//! home, and for anything that the seats know. It is the rule (`specs/Rule.antt`), and each step is proved to keep it.
//!
//! A lane has two words. One is twice the number of messages that were sent on it, and one more when the lane is
//! closed. The other is the number of messages that were received. A load takes all free slots, or all slots with a
//! message, and a store gives all of them back. So a publish or a free carries one message or several. A load of the
//! end's own word takes and gives back in the same way. So an end that keeps the last number which it loaded needn't
//! look again. A message carries the entries of its sender's clock that changed since the message before it on the lane
//! (Singhal and Kshemkalyani 1992).
//!
//! `specs/Plays.antt` states what each step guarantees. The words are grouped by who writes them (`specs/Layout.antt`).
#![tactic(auto)]

mod filling;
mod held;
mod lane;
mod leaving;
mod meeting;
mod packet;
mod receiver;
mod rule;
mod sender;
mod shape;
mod table;

pub use filling::fill_next;
pub use held::{Held, Hold};
pub use lane::Lane;
pub use leaving::{leave, take_out};
pub use meeting::{meet_note, note};
pub use packet::Packet;
pub use receiver::{find_again, find_anew, free, give_back_full, look, look_there, take_recorded};
pub use rule::{BoardRule, Seat, SharedTable};
pub use sender::{claim_again, claim_anew, close, fill, fill_begun, give_back_vacant, publish};
pub use shape::Shape;
pub use table::{BoardTable, deal, open};
