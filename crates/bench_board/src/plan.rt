//! The plan of a round: its traffic, what it is passed over, the number of messages, and the outcome.
use crate::ends::Seen;
use std::fmt;

/// The messages of a round.
#[derive(Clone, Copy, PartialEq, Eq)]
pub enum Traffic {
    /// The first instance sends the second one as many messages as the lane has slots, and then they are received. Both
    /// are on one thread.
    Burst,
    /// The same, with one call that sends and one that receives.
    Batch,
    /// The first instance sends to the second.
    OneWay,
    /// The first two instances reply to each other's messages.
    PingPong,
    /// Each instance sends to each other one.
    AllToAll,
}

/// What a round passes its messages over.
#[derive(Clone, Copy)]
pub enum Peer {
    Board,
    Rings,
}

impl fmt::Display for Traffic {
    fn fmt<W: fmt::Write>(&self, f: &mut fmt::Formatter<W>) -> fmt::Result {
        f.write_str(match self {
            Traffic::Burst => "burst",
            Traffic::Batch => "batch",
            Traffic::OneWay => "one_way",
            Traffic::PingPong => "ping_pong",
            Traffic::AllToAll => "all_to_all",
        })
    }
}

impl fmt::Display for Peer {
    fn fmt<W: fmt::Write>(&self, f: &mut fmt::Formatter<W>) -> fmt::Result {
        f.write_str(match self {
            Peer::Board => "board",
            Peer::Rings => "rings",
        })
    }
}

/// What is passed in a round, and how.
#[derive(Clone, Copy)]
pub struct Plan {
    pub traffic: Traffic,
    /// Whether each instance has a thread of its own. Otherwise all of them are on one thread, and make a step in turn.
    pub on_threads: bool,
    pub instances: usize,
    pub capacity: usize,
    pub body: usize,
    pub messages: usize,
}

/// The outcome of a round.
#[derive(Clone, Copy)]
pub struct Outcome {
    pub nanoseconds: u64,
    pub messages: u64,
    pub seen: Seen,
}

impl Plan {
    /// The number of messages from one instance to another.
    pub fn share(&self, from: usize, to: usize) -> usize {
        if from == to {
            return 0;
        }
        match self.traffic {
            Traffic::Burst | Traffic::Batch | Traffic::OneWay if from == 0 && to == 1 => {
                self.messages
            }
            Traffic::PingPong if from < 2 && to < 2 => self.messages / 2,
            Traffic::AllToAll => {
                self.messages
                    / self
                        .instances
                        .saturating_mul(self.instances.saturating_sub(1))
                        .max(1)
            }
            _ => 0,
        }
    }
}
