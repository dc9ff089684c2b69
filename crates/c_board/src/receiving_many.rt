//! Receives of several messages at once over a handle.
ghost use Rattle.std.specs.Prelude.{◌≡◌, map};
ghost use Rattle.c_board.specs.Copying.{put_over};
ghost use Rattle.c_board.specs.Receiving.{arrived_of};
ghost use Rattle.c_board.specs.ReceivingMany.{PostTakesMany, HandleTakesMany};

use crate::came::Came;
use crate::found::{Arrived, FoundMany};
use crate::handle::Handle;
use crate::misuse::Misuse;
use crate::post_state::PostState;
use crate::receiving::{TakeRefusal, arrived_of};
use board::{Arrival, TakenMany};
use chart::InstanceNo;

/// Describes these messages one by one, as many as there is room for.
fn copy_each(arrivals: &[Arrival], output: &mut [Arrived])
    ensures { output.new ≡ put_over (map arrived_of arrivals.now) output.old }
{
    let many = arrivals.len().min(output.len());
    for place in 0..many {
        output[place] = arrived_of(&arrivals[place]);
    }
}

impl PostState {
    /// Receives the first messages that wait on the lane from an instance, at most as many as `output` has places.
    fn receive_up_to(&mut self, from: u32, output: &mut [Arrived]) -> Result<FoundMany, TakeRefusal>
        ensures { PostTakesMany self.old from output.old result self.new output.new }
    {
        let Some(from) = InstanceNo::new(from as usize) else {
            return Err(TakeRefusal::NoInstance);
        };
        if output.is_empty() {
            return Err(TakeRefusal::Misuse(Misuse::WrongNumber));
        }
        let words = &(*self.table).shared;
        match self.parked.receive_up_to(words, from, output.len()) {
            Ok(TakenMany::Got { arrivals, stop }) => {
                copy_each(arrivals.as_slice(), output);
                let count = arrivals.len();
                self.last = Some(from);
                self.came = Came::Several(arrivals);
                Ok(FoundMany::Messages { count, stop })
            }
            Ok(TakenMany::Nothing) => Ok(FoundMany::Nothing),
            Ok(TakenMany::Ended) => Ok(FoundMany::Ended),
            Err(error) => Err(TakeRefusal::Post(error)),
        }
    }
}

impl Handle {
    /// Receives the first messages that wait on the lane from an instance, at most as many as `output` has places, and
    /// describes each there. They stay in the handle until the next ones come.
    ///
    /// F14 for a number that no instance has, and a misuse if `output` is empty, refuse it before the post does. If
    /// something stops it after the first message, the answer has the messages that came, and the reason. The message
    /// that was refused is still the first of its lane.
    pub fn receive_up_to(
        &mut self,
        from: u32,
        output: &mut [Arrived],
    ) -> Result<FoundMany, TakeRefusal>
        ensures { HandleTakesMany self.old.slot.value from output.old result self.new.slot.value output.new }
    {
        let Some(post) = self.post_mut() else {
            return Err(TakeRefusal::Misuse(Misuse::NoPost));
        };
        post.receive_up_to(from, output)
    }
}
