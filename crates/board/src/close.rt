//! How a post closes lanes.
ghost use Rattle.board.specs.Views.{Sound};
ghost use Rattle.board.specs.Parked.{IsAtBoard};
ghost use Rattle.board.specs.Closing.{Closes};

use crate::error::CloseError;
use crate::parked::Parked;
use crate::post::Post;
use board_table::{Lane, SharedTable, close};
use chart::InstanceNo;

impl Parked {
    /// Closes the lane to an instance, whether it is full or not: nothing more is sent on it. The first of F14, F13 and
    /// F12 that applies refuses it, and then nothing has changed. It takes no memory.
    pub fn close(&mut self, words: &SharedTable, to: InstanceNo) -> Result<(), CloseError>
        requires board { IsAtBoard words.now.key words.now.table_id self.old }
        ensures sound { Sound self.old self.new }
        ensures answer { Closes self.old to result self.new }
    {
        if to.number() > self.shape.instances {
            return Err(CloseError::NoSuchInstance);
        }
        if to == self.number {
            return Err(CloseError::ToItself);
        }
        let lane = Lane::new(&self.shape, self.number, to);
        let end = &mut self.outgoing[to.place()];
        if end.closed {
            return Err(CloseError::Closed);
        }
        close(words, &mut self.seat, &lane, end.put);
        end.closed = true;
        Ok(())
    }
}

impl<'a> Post<'a> {
    /// Closes the lane to an instance, whether it is full or not: nothing more is sent on it. The first of F14, F13 and
    /// F12 that applies refuses it, and then nothing has changed. It takes no memory.
    pub fn close(&mut self, to: InstanceNo) -> Result<(), CloseError>
        ensures sound { Sound self.old self.new }
        ensures answer { Closes self.old to result self.new }
    {
        self.parked.close(self.words, to)
    }
}
