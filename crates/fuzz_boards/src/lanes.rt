//! The messages that passed on each lane of a run.
use crate::ledger::{Ledger, with_message};
use board::Left;
use std::sync::Arc;

/// The digest of messages, continued by those that are left on the lane from one place to another.
fn with_left(digest: u64, left: &[Left], sender: usize, receiver: usize) -> u64 {
    let mut digest = digest;
    for lane in left {
        if lane.sender.place() == sender && lane.receiver.place() == receiver {
            for message in lane.messages.iter() {
                digest = with_message(digest, message);
            }
        }
    }
    digest
}

/// Whether on each lane the sent messages are the received ones followed by those that are left, and all messages that
/// weren't sent came back.
pub fn are_whole(ledgers: &[Arc<Ledger>], left: &[Left]) -> bool {
    for (sender, from) in ledgers.iter().enumerate() {
        if !from.all_came_back() {
            return false;
        }
        for (receiver, to) in ledgers.iter().enumerate() {
            let came = with_left(to.got_from(sender), left, sender, receiver);
            if came != from.sent_to(receiver) {
                return false;
            }
        }
    }
    true
}
