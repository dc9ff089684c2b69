//! A post's sends of several messages at once.
ghost use Rattle.board.specs.Views.{Sound};
ghost use Rattle.board.specs.Parked.{IsAtBoard};
ghost use Rattle.board.specs.Sending.{SendsAll};

use crate::answer::Sent;
use crate::error::SendError;
use crate::parked::Parked;
use crate::post::Post;
use crate::sending_several::send_several;
use board_table::{Lane, SharedTable};
use chart::{InstanceNo, Message};

impl Parked {
    /// Sends all of these messages, one directly after another, or none. The first of F14, F13, F30, F12, F27, F7, F11
    /// and F6 that applies refuses them. Then they come back, and nothing has changed, except that the post may have
    /// seen more. If the list is empty, nothing is sent, and only F14, F13, F30 and F12 can refuse it.
    ///
    /// F11 comes only after a look at what the receiver has received.
    pub fn send_all(
        &mut self,
        words: &SharedTable,
        to: InstanceNo,
        messages: Vec<Message>,
    ) -> Result<Vec<Sent>, (Vec<Message>, SendError)>
        requires board { IsAtBoard words.now.key words.now.table_id self.old }
        ensures sound { Sound self.old self.new }
        ensures answer { SendsAll self.old to messages.items result self.new }
    {
        if let Some(error) = self.sends_nothing(to, messages.len()) {
            return Err((messages, error));
        }
        if messages.is_empty() {
            return Ok(Vec::new(self.alloc));
        }
        let lane = Lane::new(&self.shape, self.number, to);
        let capacity = self.shape.capacity;
        let end = &mut self.outgoing[to.place()];
        send_several(
            words,
            &mut self.seat,
            &lane,
            &mut self.recorder,
            end,
            capacity,
            messages,
        )
    }
}

impl<'a> Post<'a> {
    /// Sends all of these messages, one directly after another, or none. The first of F14, F13, F30, F12, F27, F7, F11
    /// and F6 that applies refuses them. Then they come back, and nothing has changed, except that the post may have
    /// seen more. If the list is empty, nothing is sent, and only F14, F13, F30 and F12 can refuse it.
    ///
    /// F11 comes only after a look at what the receiver has received.
    pub fn send_all(
        &mut self,
        to: InstanceNo,
        messages: Vec<Message>,
    ) -> Result<Vec<Sent>, (Vec<Message>, SendError)>
        ensures sound { Sound self.old self.new }
        ensures answer { SendsAll self.old to messages.items result self.new }
    {
        self.parked.send_all(self.words, to, messages)
    }
}
