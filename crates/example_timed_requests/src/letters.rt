//! The messages that a behaviour is going to send.
ghost use Rattle.std.specs.Prelude.{◌≡◌, drop};
ghost use Rattle.example_timed_requests.specs.Letters.{act_of_first};

use behaviour::Act;
use chart::{InstanceNo, Message};
use std::collections::VecDeque;
use std::marker::Model;

/// A message, and the instance that it is for.
#[derive(Debug, Drop)]
pub struct Letter {
    pub to: InstanceNo,
    pub message: Message,
}

/// Letters, in the order in which they are sent. They are written before the run, since the acts of a behaviour depend
/// only on its state and on the answers. A message that it wrote during the run could be refused for lack of memory.
#[derive(Drop)]
pub struct Letters {
    queue: VecDeque<Letter>,
}

impl Model for Letters {
    ghost use Rattle.std.specs.Prelude.{List};
    ghost use Rattle.example_timed_requests.specs.declared.letters.Letter.{Letter};

    ghost Value = { List Letter };

    ghost view = { λ letters. letters.queue.items };
}

impl Letters {
    pub fn new(queue: VecDeque<Letter>) -> Letters
        ensures { result ≡ queue.items }
    {
        Letters { queue }
    }

    /// The act that sends the first letter, which leaves the queue. If there is none, the act closes the lane to this
    /// instance.
    pub fn send_first(&mut self, else_close: InstanceNo) -> Act
        ensures act { result ≡ act_of_first self.old else_close }
        ensures left { self.new ≡ drop 1 self.old }
    {
        match self.queue.pop_front() {
            Some(letter) => Act::Send(letter.to, letter.message),
            None => Act::Close(else_close),
        }
    }
}
