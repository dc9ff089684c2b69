//! A post's receives, one at a time.
ghost use Rattle.std.specs.Prelude.{IfOk, IfErr};
ghost use Rattle.board.specs.Views.{Sound};
ghost use Rattle.board.specs.Parked.{IsAtBoard};
ghost use Rattle.board.specs.Peeking.{IsNoLane};
ghost use Rattle.board.specs.Taking.{IsLaneFrom, IsUntaken, Takes};

use crate::answer::Taken;
use crate::error::TakeError;
use crate::parked::Parked;
use crate::post::Post;
use crate::receiving::{Found, find_messages, receive_one};
use board_table::{Lane, SharedTable};
use chart::InstanceNo;

impl Parked {
    /// Receives the first message that waits on the lane from an instance. F14 or F13 refuses it. If no message waits,
    /// the answer is [`Taken::Nothing`] or [`Taken::Ended`], and comes only after a look. If a message waits, F7 or F6
    /// can refuse the receive: then the message is still the first of its lane.
    #[inline(always)]
    pub fn receive(&mut self, words: &SharedTable, from: InstanceNo) -> Result<Taken, TakeError>
        requires board { IsAtBoard words.now.key words.now.table_id self.old }
        ensures sound { Sound self.old self.new }
        ensures answer { Takes self.old from result self.new }
    {
        let lane = self.lane_from(from)?;
        let end = &mut self.incoming[from.place()];
        match find_messages(words, &mut self.seat, &lane, end, 1) {
            Found::Nothing => return Ok(Taken::Nothing),
            Found::Ended => return Ok(Taken::Ended),
            Found::Messages => {}
        }
        let arrival = receive_one(
            words,
            &mut self.seat,
            &lane,
            &mut self.recorder,
            end,
            from,
            self.region,
        )?;
        Ok(Taken::Got(arrival))
    }

    /// The lane from an instance. The first of F14 and F13 that applies refuses it.
    #[inline(always)]
    pub(crate) fn lane_from(&self, from: InstanceNo) -> Result<Lane, TakeError>
        ensures ok { IfOk result (IsLaneFrom self.now from) }
        ensures err { IfErr result (λ error. IsUntaken self.now from error self.now) }
        ensures lane { IfErr result (IsNoLane self.now from) }
    {
        if from.number() > self.shape.instances {
            return Err(TakeError::NoSuchInstance);
        }
        if from == self.number {
            return Err(TakeError::ToItself);
        }
        Ok(Lane::new(&self.shape, from, self.number))
    }
}

impl<'a> Post<'a> {
    /// Receives the first message that waits on the lane from an instance. F14 or F13 refuses it. If no message waits,
    /// the answer is [`Taken::Nothing`] or [`Taken::Ended`], and comes only after a look. If a message waits, F7 or F6
    /// can refuse the receive: then the message is still the first of its lane.
    #[inline(always)]
    pub fn receive(&mut self, from: InstanceNo) -> Result<Taken, TakeError>
        ensures sound { Sound self.old self.new }
        ensures answer { Takes self.old from result self.new }
    {
        self.parked.receive(self.words, from)
    }
}
