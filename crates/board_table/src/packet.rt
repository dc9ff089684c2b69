//! What a slot of a lane contains.

use chart::Message;
use clock::Diff;

/// A message on its way, with the changes of its sender's clock since the message before it on the lane (Singhal and
/// Kshemkalyani 1992).
#[derive(Debug, Drop)]
pub struct Packet {
    pub message: Message,
    pub diff: Diff,
}
