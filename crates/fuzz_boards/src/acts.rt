//! A queue of acts.
ghost use Rattle.std.specs.Prelude.{◌≡◌, drop};
ghost use Rattle.fuzz_boards.specs.RandomActs.{first_act};

use behaviour::Act;
use std::collections::VecDeque;
use std::marker::Model;

/// Acts, in the order in which they are done.
#[derive(Drop)]
pub struct Acts {
    queue: VecDeque<Act>,
}

impl Model for Acts {
    ghost use Rattle.std.specs.Prelude.{List};
    ghost use Rattle.behaviour.specs.declared.act.Act.{Act};

    ghost Value = { List Act };

    ghost view = { λ acts. acts.queue.items };
}

impl Acts {
    pub fn new(queue: VecDeque<Act>) -> Acts
        ensures { result ≡ queue.items }
    {
        Acts { queue }
    }

    /// Takes the first act out of the queue. If there is none, the act is to stop.
    pub fn take_first(&mut self) -> Act
        ensures act { result ≡ first_act self.old }
        ensures left { self.new ≡ drop 1 self.old }
    {
        match self.queue.pop_front() {
            Some(act) => act,
            None => Act::Stop,
        }
    }
}
