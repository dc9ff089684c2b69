//! The messages that an instance sent and received, lane by lane.
use behaviour::{Act, Answer};
use chart::{MAX_INSTANCES, Message};
use std::alloc::{AllocError, Global};
use std::sync::atomic::{AtomicU64, Ordering};

/// The digest of no messages.
pub const NO_MESSAGES: u64 = 0xcbf2_9ce4_8422_2325;

/// The digest, continued by these bytes: the 64-bit one of Fowler, Noll and Vo.
fn with_bytes(digest: u64, bytes: &[u8]) -> u64 {
    let mut digest = digest;
    for byte in bytes {
        digest = (digest ^ u64::from(*byte)).wrapping_mul(0x0000_0100_0000_01b3);
    }
    digest
}

/// The digest of messages, continued by one more: by its name and its body, and the lengths of both.
pub fn with_message(digest: u64, message: &Message) -> u64 {
    let name = message.name();
    let body = message.body();
    let lengths = [name.as_bytes().len() as u64, body.len() as u64];
    let mut digest = digest;
    for length in lengths {
        digest = with_bytes(digest, length.to_le_bytes().as_slice());
    }
    with_bytes(with_bytes(digest, name.as_bytes()), body)
}

/// A digest for each other instance, at its place.
#[derive(Drop)]
struct Digests {
    words: Vec<AtomicU64>,
}

impl Digests {
    /// The digests of no messages.
    fn new(alloc: Global) -> Result<Digests, AllocError> {
        let mut words = Vec::new(alloc);
        for _ in 0..MAX_INSTANCES {
            words.push(AtomicU64::new(NO_MESSAGES))?;
        }
        Ok(Digests { words })
    }

    fn at(&self, place: usize) -> u64 {
        match self.words.get(place) {
            Some(word) => word.load(Ordering::SeqCst),
            None => NO_MESSAGES,
        }
    }

    fn put(&self, place: usize, digest: u64) {
        if let Some(word) = self.words.get(place) {
            word.store(digest, Ordering::SeqCst);
        }
    }
}

/// The messages that an instance sent and received, as digests. Only the instance itself writes them, and others read
/// them after the run.
#[derive(Drop)]
pub struct Ledger {
    sent: Digests,
    got: Digests,
    /// The place of the receiver in the last act of sending, and the digest of its lane with that message.
    receiver: AtomicU64,
    with_last: AtomicU64,
    /// The number of messages that came back, but weren't those that were to be sent.
    changed: AtomicU64,
}

impl Ledger {
    /// The ledger of an instance that hasn't done anything.
    pub fn new(alloc: Global) -> Result<Ledger, AllocError> {
        Ok(Ledger {
            sent: Digests::new(alloc)?,
            got: Digests::new(alloc)?,
            receiver: AtomicU64::new(0),
            with_last: AtomicU64::new(NO_MESSAGES),
            changed: AtomicU64::new(0),
        })
    }

    /// Notes the act that the instance is going to do.
    pub fn note_act(&self, act: &Act) {
        if let Act::Send(to, message) = act {
            let place = to.place();
            let digest = with_message(self.sent.at(place), message);
            self.receiver.store(place as u64, Ordering::SeqCst);
            self.with_last.store(digest, Ordering::SeqCst);
        }
    }

    /// The place of the receiver in the last act of sending.
    fn last_receiver(&self) -> usize {
        self.receiver.load(Ordering::SeqCst) as usize
    }

    /// Notes the answer to the last act.
    pub fn note_answer(&self, answer: &Answer) {
        match answer {
            Answer::Sent(_) => {
                let digest = self.with_last.load(Ordering::SeqCst);
                self.sent.put(self.last_receiver(), digest);
            }
            Answer::Unsent(message, _) => {
                let digest = with_message(self.sent.at(self.last_receiver()), message);
                if digest != self.with_last.load(Ordering::SeqCst) {
                    self.changed.fetch_add(1, Ordering::SeqCst);
                }
            }
            Answer::Got(arrival) => {
                let place = arrival.from.place();
                let digest = with_message(self.got.at(place), &arrival.message);
                self.got.put(place, digest);
            }
            _ => {}
        }
    }

    /// The digest of the messages that were sent to the instance at this place.
    pub fn sent_to(&self, receiver: usize) -> u64 {
        self.sent.at(receiver)
    }

    /// The digest of the messages that were received from the instance at this place.
    pub fn got_from(&self, sender: usize) -> u64 {
        self.got.at(sender)
    }

    /// Whether each message that came back was the one that was to be sent.
    pub fn all_came_back(&self) -> bool {
        self.changed.load(Ordering::SeqCst) == 0
    }
}
