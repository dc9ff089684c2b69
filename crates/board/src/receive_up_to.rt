//! A post's receives of several messages at once.
ghost use Rattle.std.specs.Prelude.{◌≤◌};
ghost use Rattle.board.specs.Views.{Sound};
ghost use Rattle.board.specs.Parked.{IsAtBoard};
ghost use Rattle.board.specs.TakingMany.{TakesMany};

use crate::answer::TakenMany;
use crate::error::TakeError;
use crate::parked::Parked;
use crate::post::Post;
use crate::receiving::{Found, find_messages};
use crate::receiving_several::receive_several;
use board_table::SharedTable;
use chart::InstanceNo;

impl Parked {
    /// Receives the first messages that wait on the lane from an instance, at most `max`, and frees their slots at
    /// once. F14 or F13 refuses it. If no message waits, the answer is [`TakenMany::Nothing`] or [`TakenMany::Ended`],
    /// and comes only after a look. F7 or F6 refuses the receive only if not even one message could be received. The
    /// message that stops it is still the first of its lane.
    ///
    /// It looks at what was sent only if it knows of fewer than `max` messages.
    pub fn receive_up_to(
        &mut self,
        words: &SharedTable,
        from: InstanceNo,
        max: usize,
    ) -> Result<TakenMany, TakeError>
        requires board { IsAtBoard words.now.key words.now.table_id self.old }
        requires some { 1 ≤ max }
        ensures sound { Sound self.old self.new }
        ensures answer { TakesMany self.old from max result self.new }
    {
        let lane = self.lane_from(from)?;
        let end = &mut self.incoming[from.place()];
        match find_messages(words, &mut self.seat, &lane, end, max as u64) {
            Found::Nothing => return Ok(TakenMany::Nothing),
            Found::Ended => return Ok(TakenMany::Ended),
            Found::Messages => {}
        }
        let (arrivals, stop) = receive_several(
            words,
            &mut self.seat,
            &lane,
            self.alloc,
            &mut self.recorder,
            end,
            from,
            self.region,
            max as u64,
        )?;
        Ok(TakenMany::Got { arrivals, stop })
    }
}

impl<'a> Post<'a> {
    /// Receives the first messages that wait on the lane from an instance, at most `max`, and frees their slots at
    /// once. F14 or F13 refuses it. If no message waits, the answer is [`TakenMany::Nothing`] or [`TakenMany::Ended`],
    /// and comes only after a look. F7 or F6 refuses the receive only if not even one message could be received. The
    /// message that stops it is still the first of its lane.
    ///
    /// It looks at what was sent only if it knows of fewer than `max` messages.
    pub fn receive_up_to(&mut self, from: InstanceNo, max: usize) -> Result<TakenMany, TakeError>
        requires some { 1 ≤ max }
        ensures sound { Sound self.old self.new }
        ensures answer { TakesMany self.old from max result self.new }
    {
        self.parked.receive_up_to(self.words, from, max)
    }
}
