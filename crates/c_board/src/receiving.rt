//! Receives over a handle.
ghost use Rattle.std.specs.Prelude.{◌≡◌, ◌≤◌};
ghost use Rattle.c_board.specs.Receiving.{arrived_of, PostTakes, PostTakesAny, HandleTakes, HandleTakesAny};
ghost use Rattle.c_board.specs.Receiving.{IsLastNamed, found_with, arrived_after, of_untaken, of_none_taken};

use crate::any::any_after;
use crate::came::Came;
use crate::found::{Arrived, Found};
use crate::handle::Handle;
use crate::misuse::{Misuse, Numbering};
use crate::numbered::Numbered;
use crate::post_state::PostState;
use board::{Arrival, Parked, Peek, TakeError, Taken};
use chart::{InstanceNo, Message};

/// Why nothing is received from an instance.
#[derive(Clone, Copy)]
pub enum TakeRefusal {
    /// The handle keeps no post, or there is no room for a message.
    Misuse(Misuse),
    /// F14: the instance's number is 0, or greater than [`chart::MAX_INSTANCES`].
    NoInstance,
    /// The post refuses it.
    Post(TakeError),
}

/// Why nothing is received from any instance.
#[derive(Clone, Copy)]
pub enum AnyRefusal {
    /// The handle keeps no post.
    Misuse(Misuse),
    /// The post refuses it.
    Post(TakeError),
}

impl Numbered for TakeRefusal {
    ghost number = { of_untaken };

    #[inline(always)]
    fn number(self, misuses: Numbering) -> u32 {
        match self {
            TakeRefusal::Misuse(misuse) => misuse.number(misuses),
            TakeRefusal::NoInstance => 14,
            TakeRefusal::Post(error) => error.number(misuses),
        }
    }
}

impl Numbered for AnyRefusal {
    ghost number = { of_none_taken };

    #[inline(always)]
    fn number(self, misuses: Numbering) -> u32 {
        match self {
            AnyRefusal::Misuse(misuse) => misuse.number(misuses),
            AnyRefusal::Post(error) => error.number(misuses),
        }
    }
}

/// The description of a message.
#[inline(always)]
pub(crate) fn arrived_of(arrival: &Arrival) -> Arrived
    ensures { result ≡ arrived_of arrival.now }
{
    Arrived {
        from: arrival.from.number() as u32,
        event: arrival.report.receive().index,
        name: arrival.message.name().as_bytes().len(),
        body: arrival.message.body().len(),
        races: arrival.report.earlier().len(),
    }
}

/// The message, with the name that the event of its receive has. This is the last event of the line.
///
/// Both names are equal. Because the message's own name isn't read, the compiler drops the code that moves it through
/// the calls below.
#[inline(always)]
fn as_recorded(post: &Parked, message: Message) -> Message
    requires { IsLastNamed post.now message.name }
    ensures { result ≡ message }
{
    let (_, body) = message.into_parts();
    let line = post.line();
    let event = line.event(line.len() - 1);
    let Ok(message) = Message::new(event.name(), body) else {
        unreachable!()
    };
    message
}

impl PostState {
    /// Receives the first message that waits on the lane from an instance, and describes it in `output`.
    #[inline(always)]
    fn receive(&mut self, from: u32, output: &mut Arrived) -> Result<Peek, TakeRefusal>
        ensures answer { PostTakes self.old from (found_with result output.new) self.new }
        ensures output { output.new ≡ arrived_after output.old (found_with result output.new) }
    {
        let Some(from) = InstanceNo::new(from as usize) else {
            return Err(TakeRefusal::NoInstance);
        };
        let words = &(*self.table).shared;
        match self.parked.receive(words, from) {
            Ok(Taken::Got(arrival)) => {
                let Arrival {
                    from,
                    message,
                    report,
                } = arrival;
                let message = as_recorded(&self.parked, message);
                self.came.keep(from, message, report);
                self.last = Some(from);
                let Came::One(arrival) = &self.came else {
                    unreachable!()
                };
                *output = arrived_of(arrival);
                Ok(Peek::Message)
            }
            Ok(Taken::Nothing) => Ok(Peek::Nothing),
            Ok(Taken::Ended) => Ok(Peek::Ended),
            Err(error) => Err(TakeRefusal::Post(error)),
        }
    }

    /// Receives the first message that it finds on the lanes from the other instances. It looks at them in cyclic
    /// order, after the instance from which it received last.
    fn any(&mut self) -> Result<Found, AnyRefusal>
        ensures { PostTakesAny self.old result self.new }
    {
        let last = match self.last {
            Some(instance) => instance.number(),
            None => 0,
        };
        let words = &(*self.table).shared;
        match any_after(&mut self.parked, words, last) {
            Ok(Taken::Got(arrival)) => {
                let arrived = arrived_of(&arrival);
                self.last = Some(arrival.from);
                self.came = Came::One(arrival);
                Ok(Found::Message(arrived))
            }
            Ok(Taken::Nothing) => Ok(Found::Nothing),
            Ok(Taken::Ended) => Ok(Found::Ended),
            Err(error) => Err(AnyRefusal::Post(error)),
        }
    }
}

impl Handle {
    /// Receives the first message that waits on the lane from an instance, and describes it in `output`. It stays in
    /// the handle until the next one comes. F14, for a number that no instance has, refuses it before the post does.
    ///
    /// The description is written to where the caller reads it: a returned value would go through memory twice.
    pub fn receive(&mut self, from: u32, output: &mut Arrived) -> Result<Peek, TakeRefusal>
        ensures answer { HandleTakes self.old.slot.value from (found_with result output.new) self.new.slot.value }
        ensures output { output.new ≡ arrived_after output.old (found_with result output.new) }
    {
        let Some(post) = self.post_mut() else {
            return Err(TakeRefusal::Misuse(Misuse::NoPost));
        };
        post.receive(from, output)
    }

    /// Receives the first message that it finds on the lanes from the other instances. It looks at them in cyclic
    /// order, beginning after the instance from which it received last. The message stays in the handle.
    pub fn any(&mut self) -> Result<Found, AnyRefusal>
        ensures { HandleTakesAny self.old.slot.value result self.new.slot.value }
    {
        let Some(post) = self.post_mut() else {
            return Err(AnyRefusal::Misuse(Misuse::NoPost));
        };
        post.any()
    }
}
