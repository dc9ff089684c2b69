//! Both forms of a lane over plain words and slots, and the plain queue that they are compared with.
use lane_core::answers::{Found, ReceiverStep, Room, SenderStep};
use lane_core::{flag_words, index_words};

/// A step of an end, as in a run of the lane machine.
#[derive(Clone, Copy, Debug, PartialEq, Eq)]
pub enum Step {
    SenderLoads,
    Fills(u32),
    Publishes,
    Closes,
    ReceiverLoads,
    Takes,
    PutsBack(u32),
    Frees,
}

/// The result of a step.
#[derive(Clone, Copy, Debug, PartialEq, Eq)]
pub enum Shown {
    Refused,
    Made,
    Room(Room),
    Found(Found),
    Took(Option<u32>),
}

/// A lane over plain words and slots. It makes a step if its end may make it.
pub trait Machine: Copy + Eq {
    fn new(capacity: u64) -> Self;

    fn step(&mut self, step: Step) -> Shown;

    fn next_of_sender(&self) -> SenderStep;

    fn next_of_receiver(&self) -> ReceiverStep;
}

/// A lane over index words.
#[derive(Clone, Copy, Debug, PartialEq, Eq)]
pub struct IndexLane {
    pub put: u64,
    pub taken: u64,
    pub slots: [Option<u32>; 64],
    pub sender: index_words::SenderEnd,
    pub receiver: index_words::ReceiverEnd,
}

/// Puts a message into a slot.
fn put_in(slots: &mut [Option<u32>], slot: u64, message: u32) -> Shown {
    match slots.get_mut(slot as usize) {
        Some(slot) => {
            *slot = Some(message);
            Shown::Made
        }
        None => Shown::Refused,
    }
}

/// Takes the content of a slot.
fn take_out(slots: &mut [Option<u32>], slot: u64) -> Shown {
    match slots.get_mut(slot as usize) {
        Some(slot) => {
            let message = *slot;
            *slot = None;
            Shown::Took(message)
        }
        None => Shown::Refused,
    }
}

impl IndexLane {
    fn step_of_sender(&mut self, step: Step) -> Shown {
        match step {
            Step::SenderLoads if self.sender.can_load(self.taken) => {
                Shown::Room(self.sender.load(self.taken))
            }
            Step::Fills(message) if self.sender.can_fill() => {
                let slot = self.sender.fill();
                put_in(&mut self.slots, slot, message)
            }
            Step::Publishes if self.sender.can_publish() => {
                self.put = self.sender.publish();
                Shown::Made
            }
            Step::Closes if self.sender.can_close() => {
                self.put = self.sender.close();
                Shown::Made
            }
            _ => Shown::Refused,
        }
    }

    fn step_of_receiver(&mut self, step: Step) -> Shown {
        match step {
            Step::ReceiverLoads => Shown::Found(self.receiver.load(self.put)),
            Step::Takes if self.receiver.can_take() => {
                let slot = self.receiver.take();
                take_out(&mut self.slots, slot)
            }
            Step::PutsBack(message) if self.receiver.can_put_back() => {
                let slot = self.receiver.put_back();
                put_in(&mut self.slots, slot, message)
            }
            Step::Frees if self.receiver.can_free() => {
                self.taken = self.receiver.free();
                Shown::Made
            }
            _ => Shown::Refused,
        }
    }
}

impl Machine for IndexLane {
    fn new(capacity: u64) -> IndexLane {
        IndexLane {
            put: 0,
            taken: 0,
            slots: [None; 64],
            sender: index_words::SenderEnd::new(capacity),
            receiver: index_words::ReceiverEnd::new(capacity),
        }
    }

    fn step(&mut self, step: Step) -> Shown {
        match step {
            Step::SenderLoads | Step::Fills(_) | Step::Publishes | Step::Closes => {
                self.step_of_sender(step)
            }
            _ => self.step_of_receiver(step),
        }
    }

    fn next_of_sender(&self) -> SenderStep {
        if self.sender.fits() {
            self.sender.next()
        } else {
            SenderStep::Load
        }
    }

    fn next_of_receiver(&self) -> ReceiverStep {
        if self.receiver.fits() {
            self.receiver.next()
        } else {
            ReceiverStep::Look
        }
    }
}

/// A lane over slot words.
#[derive(Clone, Copy, Debug, PartialEq, Eq)]
pub struct FlagLane {
    pub words: [flag_words::Word; 64],
    pub slots: [Option<u32>; 64],
    pub sender: flag_words::SenderEnd,
    pub receiver: flag_words::ReceiverEnd,
}

impl FlagLane {
    fn step_of_sender(&mut self, step: Step) -> Shown {
        if !self.sender.fits() {
            return Shown::Refused;
        }
        let slot = self.sender.slot();
        let word = match self.words.get_mut(slot as usize) {
            Some(word) => word,
            None => return Shown::Refused,
        };
        match step {
            Step::SenderLoads => Shown::Room(self.sender.load(*word)),
            Step::Fills(message) if self.sender.can_fill() => {
                self.sender.fill();
                put_in(&mut self.slots, slot, message)
            }
            Step::Publishes if self.sender.can_publish() => {
                *word = self.sender.publish(*word);
                Shown::Made
            }
            Step::Closes if self.sender.can_close() => {
                *word = self.sender.close(*word);
                Shown::Made
            }
            _ => Shown::Refused,
        }
    }

    fn step_of_receiver(&mut self, step: Step) -> Shown {
        if !self.receiver.fits() {
            return Shown::Refused;
        }
        let slot = self.receiver.slot();
        let word = match self.words.get_mut(slot as usize) {
            Some(word) => word,
            None => return Shown::Refused,
        };
        match step {
            Step::ReceiverLoads => Shown::Found(self.receiver.load(*word)),
            Step::Takes if self.receiver.can_take() => {
                self.receiver.take();
                take_out(&mut self.slots, slot)
            }
            Step::PutsBack(message) if self.receiver.can_free() => {
                self.receiver.put_back();
                put_in(&mut self.slots, slot, message)
            }
            Step::Frees if self.receiver.can_free() => {
                *word = self.receiver.free(*word);
                Shown::Made
            }
            _ => Shown::Refused,
        }
    }
}

impl Machine for FlagLane {
    fn new(capacity: u64) -> FlagLane {
        FlagLane {
            words: [flag_words::Word::new(); 64],
            slots: [None; 64],
            sender: flag_words::SenderEnd::new(capacity),
            receiver: flag_words::ReceiverEnd::new(capacity),
        }
    }

    fn step(&mut self, step: Step) -> Shown {
        match step {
            Step::SenderLoads | Step::Fills(_) | Step::Publishes | Step::Closes => {
                self.step_of_sender(step)
            }
            _ => self.step_of_receiver(step),
        }
    }

    fn next_of_sender(&self) -> SenderStep {
        self.sender.next()
    }

    fn next_of_receiver(&self) -> ReceiverStep {
        self.receiver.next()
    }
}

/// A plain closable queue of the numbers from `first` up to but not including `next`. The receiver holds the first
/// `held` of them, and the sender has the next `filled` numbers ready.
#[derive(Clone, Copy, Debug, PartialEq, Eq)]
pub struct Queue {
    pub capacity: u32,
    pub first: u32,
    pub next: u32,
    pub held: u32,
    pub filled: u32,
    pub closed: bool,
}

impl Queue {
    pub fn new(capacity: u32) -> Queue {
        Queue {
            capacity,
            first: 0,
            next: 0,
            held: 0,
            filled: 0,
            closed: false,
        }
    }

    pub fn len(&self) -> u32 {
        self.next.wrapping_sub(self.first)
    }

    pub fn room(&self) -> Room {
        if self.len() < self.capacity {
            Room::Vacant
        } else {
            Room::Full
        }
    }

    pub fn found(&self) -> Found {
        if 0 < self.len() {
            Found::Message
        } else if self.closed {
            Found::Ended
        } else {
            Found::Nothing
        }
    }

    /// Makes a step that the lane may make, and returns what it shows. A step that no queue may make is refused.
    pub fn step(&mut self, step: Step) -> Shown {
        match step {
            Step::SenderLoads => Shown::Room(self.room()),
            Step::Fills(_) if self.len().wrapping_add(self.filled) < self.capacity => {
                self.filled = self.filled.wrapping_add(1);
                Shown::Made
            }
            Step::Publishes if !self.closed && 0 < self.filled => {
                self.next = self.next.wrapping_add(self.filled);
                self.filled = 0;
                Shown::Made
            }
            Step::Closes if !self.closed => {
                self.filled = 0;
                self.closed = true;
                Shown::Made
            }
            Step::ReceiverLoads => Shown::Found(self.found()),
            Step::Takes if self.held < self.len() => {
                let message = self.first.wrapping_add(self.held);
                self.held = self.held.wrapping_add(1);
                Shown::Took(Some(message))
            }
            Step::PutsBack(_) if 0 < self.held => {
                self.held = self.held.wrapping_sub(1);
                Shown::Made
            }
            Step::Frees if 0 < self.held => {
                self.first = self.first.wrapping_add(self.held);
                self.held = 0;
                Shown::Made
            }
            _ => Shown::Refused,
        }
    }

    /// Each step that an end could make next, with the numbers that it would put in or back.
    pub fn steps(&self) -> [Step; 8] {
        [
            Step::SenderLoads,
            Step::Publishes,
            Step::Closes,
            Step::ReceiverLoads,
            Step::Frees,
            Step::Fills(self.next.wrapping_add(self.filled)),
            Step::Takes,
            Step::PutsBack(self.first.wrapping_add(self.held).wrapping_sub(1)),
        ]
    }
}
