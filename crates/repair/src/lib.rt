//! What to change in a protocol so that races of its chart go.
//!
//! A race goes where the receive's sender learns of the earlier event before it sends: by a message more from the
//! receive's own instance, sent behind that event and received directly before the receive's send. Where that can't
//! be, no message from the one instance to the other makes the race go ([`mend`], [`laws`]).
//!
//! One message after another ([`mend_all`]): each that is added mends the pair that leaves the fewest race pairs of
//! all, fewer than there were; of several such pairs the first by instance, receive and earlier event. No message
//! more would leave fewer, unless it stopped, since more pairs were left than might still be tried. It may be asked to
//! mend and count only some of the pairs ([`Counted`]): those whose earlier event is a receive, say
//! (`shown_races::Showing`), or those that were luck. A pair of luck stays one by its two events, whose numbers change
//! with each message. Each message is called by the first of `ack`, `ack_2`, .. that no message has ([`free_name`]).
#![tactic(auto)]

mod adding;
mod asking;
mod best;
mod counted;
mod error;
mod events;
mod growing;
pub mod laws;
mod marks;
mod mending;
mod message;
mod moves;
mod naming;
mod pairs;

pub use adding::{MendedChart, mend_all};
pub use best::Addition;
pub use counted::Counted;
pub use error::MendError;
pub use growing::copied;
pub use marks::marked;
pub use mending::{Mending, mend, mend_race};
pub use message::Message;
pub use moves::new_index;
pub use naming::{free_name, is_taken};
pub use pairs::{RacePair, count_pairs};
