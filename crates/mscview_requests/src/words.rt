//! The values of some options of `mscview`: names joined by commas, the lines of one instance, and a host's other names
//! in the log.
//!
//! What is promised: the meaning of a word is the one in the definitions (`specs/Words/`). A word without a meaning
//! there is refused (G1). F6: memory ran out.

mod hosts;
mod joins;
mod parts;

pub use hosts::{PeerWord, hosts_by, peer_words, peers_of};
pub use joins::{JoinWord, join_words, joins_of};
