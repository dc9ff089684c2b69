//! A behaviour that fills its line.
ghost use Rattle.std.specs.Prelude.{◌≡◌, ◌%◌, ◌==◌};
ghost use Rattle.fuzz_boards.specs.Filling.{sends_left, receives_left, next_deed, either_of};

use behaviour::{Act, Answer, BareAct, Behaviour};
use chart::{InstanceNo, Name};
use std::alloc::Global;

/// The next deed of a filler.
#[derive(Clone, Copy, Debug, PartialEq, Eq)]
pub enum Deed {
    /// To send to one of its two partners.
    Send,
    /// To receive from any instance that has a message.
    Take,
    Stop,
}

/// The number of sends that are left after this answer.
fn sends_left(sends: u32, last: &Answer) -> u32
    ensures { result ≡ sends_left sends last.now }
{
    match last {
        Answer::Sent(_) => sends.saturating_sub(1),
        _ => sends,
    }
}

/// The number of receives that are left after this answer.
fn receives_left(receives: u32, last: &Answer) -> u32
    ensures { result ≡ receives_left receives last.now }
{
    match last {
        Answer::Got(_) => receives.saturating_sub(1),
        _ => receives,
    }
}

/// The next deed after this answer. If a lane is full or no message waits, the other kind of deed is next.
fn next_deed(last: &Answer, all_sent: bool, all_got: bool) -> Deed
    ensures { result ≡ next_deed last.now all_sent all_got }
{
    match last {
        Answer::Unreceived(_) => Deed::Stop,
        Answer::Unsent(_, _) => if !all_sent && all_got {
            Deed::Send
        } else {
            Deed::Take
        },
        Answer::Nothing => if all_sent { Deed::Take } else { Deed::Send },
        _ => if all_sent && !all_got {
            Deed::Take
        } else {
            Deed::Send
        },
    }
}

/// An instance that sends a number of messages, alternately to two others, and receives a number of messages. Then it
/// tries a send, and receives until a receive is refused.
#[derive(Drop)]
pub struct Filler {
    pub alloc: Global,
    pub near: InstanceNo,
    pub far: InstanceNo,
    pub name: Name,
    pub sends: u32,
    pub receives: u32,
}

impl Filler {
    /// The instance to which it sends next.
    fn partner(&self) -> InstanceNo
        ensures { result ≡ either_of (self.now.sends % 2 == 0) self.now.near self.now.far }
    {
        if self.sends % 2 == 0 {
            self.near
        } else {
            self.far
        }
    }
}

impl Behaviour for Filler {
    ghost use Rattle.std.specs.Prelude.{◌%◌, ◌==◌};
    ghost use Rattle.fuzz_boards.specs.Filling.{sends_left, receives_left, next_deed, either_of, act_of};

    ghost act = { λ filler last.
        act_of (next_deed last (sends_left filler.sends last == 0) (receives_left filler.receives last == 0))
        (either_of (sends_left filler.sends last % 2 == 0) filler.near filler.far) filler.name };

    ghost after = { λ filler last. record filler {
      sends = sends_left filler.sends last;
      receives = receives_left filler.receives last;
    } };

    fn next(&mut self, last: &Answer) -> Act {
        self.sends = sends_left(self.sends, last);
        self.receives = receives_left(self.receives, last);
        match next_deed(last, self.sends == 0, self.receives == 0) {
            Deed::Send => BareAct::Send(self.partner(), self.name).with_empty_body(self.alloc),
            Deed::Take => Act::Any,
            Deed::Stop => Act::Stop,
        }
    }
}
