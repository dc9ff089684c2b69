//! A post's sends, one at a time.
ghost use Rattle.std.specs.Prelude.{◌≢◌, ◌+◌, ◌<◌, ◌≤◌, IfSome, IfNone, IfErr};
ghost use Rattle.chart.specs.declared.line.TheConstants.{MAX_EVENTS};
ghost use Rattle.clock.specs.declared.clock.TheConstants.{INLINE_ENTRIES};
ghost use Rattle.board.specs.Views.{Sound, HasReceivedNothing};
ghost use Rattle.board.specs.Parked.{IsAtBoard};
ghost use Rattle.board.specs.Sending.{Sends, MayPass, IsUnsent};

use crate::answer::Sent;
use crate::error::SendError;
use crate::parked::Parked;
use crate::post::Post;
use crate::sending::send_one;
use board_table::{Lane, SharedTable};
use chart::{EventNo, InstanceNo, MAX_EVENTS, Message};

impl Parked {
    /// Sends a message. The first of F14, F13, F30, F12, F7, F11 and F6 that applies refuses it. Then the message comes
    /// back, and nothing has changed, except that the post may have seen more.
    ///
    /// F11 comes only after a look at what the receiver has received. F6 doesn't come while there is room, if the board
    /// has at most [`clock::INLINE_ENTRIES`] instances, or if the post has received nothing yet.
    #[inline(always)]
    pub fn send(
        &mut self,
        words: &SharedTable,
        to: InstanceNo,
        message: Message,
    ) -> Result<Sent, (Message, SendError)>
        requires board { IsAtBoard words.now.key words.now.table_id self.old }
        ensures sound { Sound self.old self.new }
        ensures answer { Sends self.old to message result self.new }
        ensures room { 0 < self.old.room → self.old.board.size ≤ INLINE_ENTRIES
            → IfErr result (λ refused. refused.1 ≢ SendError.Memory) }
        ensures alone { 0 < self.old.room → HasReceivedNothing self.old
            → IfErr result (λ refused. refused.1 ≢ SendError.Memory) }
    {
        if let Some(error) = self.sends_nothing(to, 1) {
            return Err((message, error));
        }
        let lane = Lane::new(&self.shape, self.number, to);
        let capacity = self.shape.capacity;
        let end = &mut self.outgoing[to.place()];
        match send_one(
            words,
            &mut self.seat,
            &lane,
            &mut self.recorder,
            end,
            capacity,
            message,
        ) {
            Ok(()) => Ok(Sent {
                event: EventNo {
                    instance: self.number,
                    index: self.recorder.line().len() as u32,
                },
            }),
            Err(refused) => Err(refused),
        }
    }

    /// The first reason not to send `many` messages to this instance, whatever waits there.
    #[inline(always)]
    pub(crate) fn sends_nothing(&self, to: InstanceNo, many: usize) -> Option<SendError>
        ensures none { IfNone result (MayPass self.now to many) }
        ensures some { IfSome result (λ error. IsUnsent self.now to many error self.now) }
        ensures memory { IfSome result (λ error. error ≢ SendError.Memory) }
    {
        if to.number() > self.shape.instances {
            return Some(SendError::NoSuchInstance);
        }
        if to == self.number {
            return Some(SendError::ToItself);
        }
        if self.region > 0 {
            return Some(SendError::InCoregion);
        }
        if self.outgoing[to.place()].closed {
            return Some(SendError::Closed);
        }
        if many > self.shape.capacity {
            return Some(SendError::TooMany);
        }
        if self.recorder.line().len() + many > MAX_EVENTS {
            return Some(SendError::LineFull);
        }
        None
    }
}

impl<'a> Post<'a> {
    /// Sends a message. The first of F14, F13, F30, F12, F7, F11 and F6 that applies refuses it. Then the message comes
    /// back, and nothing has changed, except that the post may have seen more.
    ///
    /// F11 comes only after a look at what the receiver has received. F6 doesn't come while there is room, if the board
    /// has at most [`clock::INLINE_ENTRIES`] instances, or if the post has received nothing yet.
    #[inline(always)]
    pub fn send(&mut self, to: InstanceNo, message: Message) -> Result<Sent, (Message, SendError)>
        ensures sound { Sound self.old self.new }
        ensures answer { Sends self.old to message result self.new }
        ensures room { 0 < self.old.room → self.old.board.size ≤ INLINE_ENTRIES
            → IfErr result (λ refused. refused.1 ≢ SendError.Memory) }
        ensures alone { 0 < self.old.room → HasReceivedNothing self.old
            → IfErr result (λ refused. refused.1 ≢ SendError.Memory) }
    {
        self.parked.send(self.words, to, message)
    }
}
