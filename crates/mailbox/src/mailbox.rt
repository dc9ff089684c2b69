//! The mailbox of an instance.
ghost use Rattle.std.specs.Prelude.{◌≡◌, ◌+◌, ◌<◌, ◌≤◌, ◌≢◌, ◌↔◌, max, Ok, Err, OnOk, OnErr, IfErr};
ghost use Rattle.chart.specs.Events.{greatest_region};
ghost use Rattle.chart.specs.declared.line.TheConstants.{MAX_EVENTS};
ghost use Rattle.clock.specs.declared.clock.TheConstants.{INLINE_ENTRIES};
ghost use Rattle.board.specs.declared.error.SendError.TheVariants as sending;
ghost use Rattle.board.specs.declared.error.RegionError.TheVariants.{CoregionOpen, CoregionNotOpen};
ghost use Rattle.board.specs.Views.{Sound, line_of};
ghost use Rattle.board.specs.Sending.{Sends, SendsAll};
ghost use Rattle.board.specs.Taking.{Takes};
ghost use Rattle.board.specs.TakingMany.{TakesMany};
ghost use Rattle.board.specs.Closing.{Closes};
ghost use Rattle.mailbox.specs.Mailboxes.{last_after, last_after_many};
ghost use Rattle.mailbox.specs.TakingAny.{TakesAny};

use crate::any::any_from;
use board::{CloseError, Memory, Post, RegionError, SendError, Sent, TakeError, Taken, TakenMany};
use chart::{GrowingLine, InstanceNo, Message};
use std::marker::Model;

/// A post that also keeps the instance from which it received last, so that [`Mailbox::any`] gives each instance its
/// turn. It is an actor's mailbox, with a lane for each sender.
///
/// A contract sees the post and this instance, 0 for none. At first there is none. Each message that [`Mailbox::any`],
/// [`Mailbox::receive`] and [`Mailbox::receive_up_to`] receive makes the instance its sender, and no other call changes
/// it. Apart from this, a call does what the post's call with this name does.
#[derive(Drop)]
pub struct Mailbox<'a> {
    post: Post<'a>,
    last: Option<InstanceNo>,
}

impl<'a> Model for Mailbox<'a> {
    ghost use Rattle.std.specs.Prelude.{◌≤◌, unwrap_or};
    ghost use Rattle.mailbox.specs.Mailboxes.{MailboxView};

    ghost Value = { MailboxView };

    ghost view = { λ mailbox. record { post = mailbox.post; last = unwrap_or mailbox.last 0 } };

    ghost invariant = { λ mailbox. unwrap_or mailbox.last 0 ≤ mailbox.post.board.size };
}

impl<'a> Mailbox<'a> {
    /// A mailbox with this post. The call takes no memory.
    pub fn new(post: Post<'a>) -> Mailbox<'a>
        ensures { result ≡ record { post = post.entry; last = 0 } }
    {
        Mailbox { post, last: None }
    }

    /// Ends the mailbox, and returns its post. The call takes no memory.
    pub fn into_post(self) -> Post<'a>
        ensures { result ≡ self.entry.post }
    {
        self.post
    }

    /// The mailbox's number among the instances of its board.
    pub fn number(&self) -> InstanceNo
        ensures { result ≡ self.now.post.number }
    {
        self.post.number()
    }

    /// The post's line in the chart of what it has seen. The call takes no memory.
    pub fn line(&self) -> &GrowingLine
        ensures { result.now.line ≡ record { instance = self.now.post.number; events = line_of self.now.post } }
    {
        self.post.line()
    }

    /// Receives the first message that it finds on the lanes from the other instances. It looks at them in cyclic
    /// order, beginning after the instance from which it received last. If it found a message, F7 and F6 can refuse it.
    /// The message is then still the first of its lane, and the next call begins with the same instance. If it found
    /// none, the answer is the end if each lane was found ended, and otherwise nothing. It has then looked at each
    /// lane, and took no memory.
    pub fn any(&mut self) -> Result<Taken, TakeError>
        ensures sound { Sound self.old.post self.new.post }
        ensures answer { TakesAny self.old.post self.old.last result self.new.post }
        ensures last { self.new.last ≡ last_after self.old.last result }
    {
        let taken = any_from(&mut self.post, self.last)?;
        if let Taken::Got(arrival) = &taken {
            self.last = Some(arrival.from);
        }
        Ok(taken)
    }

    /// Receives the first message that waits on the lane from an instance, as [`Post::receive`] does.
    pub fn receive(&mut self, from: InstanceNo) -> Result<Taken, TakeError>
        ensures sound { Sound self.old.post self.new.post }
        ensures answer { Takes self.old.post from result self.new.post }
        ensures last { self.new.last ≡ last_after self.old.last result }
    {
        let taken = self.post.receive(from)?;
        if let Taken::Got(arrival) = &taken {
            self.last = Some(arrival.from);
        }
        Ok(taken)
    }

    /// Receives the first messages that wait on the lane from an instance, at most `max`, as [`Post::receive_up_to`]
    /// does.
    pub fn receive_up_to(&mut self, from: InstanceNo, max: usize) -> Result<TakenMany, TakeError>
        requires some { 1 ≤ max }
        ensures sound { Sound self.old.post self.new.post }
        ensures answer { TakesMany self.old.post from max result self.new.post }
        ensures last { self.new.last ≡ last_after_many self.old.last from result }
    {
        let taken = self.post.receive_up_to(from, max)?;
        if let TakenMany::Got { .. } = &taken {
            self.last = Some(from);
        }
        Ok(taken)
    }

    /// Sends a message, as [`Post::send`] does.
    pub fn send(&mut self, to: InstanceNo, message: Message) -> Result<Sent, (Message, SendError)>
        ensures sound { Sound self.old.post self.new.post }
        ensures answer { Sends self.old.post to message result self.new.post }
        ensures room { 0 < self.old.post.room → self.old.post.board.size ≤ INLINE_ENTRIES
            → IfErr result (λ refused. refused.1 ≢ sending.Memory) }
        ensures last { self.new.last ≡ self.old.last }
    {
        self.post.send(to, message)
    }

    /// Sends all of these messages, one directly after another, or none, as [`Post::send_all`] does.
    pub fn send_all(
        &mut self,
        to: InstanceNo,
        messages: Vec<Message>,
    ) -> Result<Vec<Sent>, (Vec<Message>, SendError)>
        ensures sound { Sound self.old.post self.new.post }
        ensures answer { SendsAll self.old.post to messages.items result self.new.post }
        ensures last { self.new.last ≡ self.old.last }
    {
        self.post.send_all(to, messages)
    }

    /// Closes the lane to an instance, as [`Post::close`] does.
    pub fn close(&mut self, to: InstanceNo) -> Result<(), CloseError>
        ensures sound { Sound self.old.post self.new.post }
        ensures answer { Closes self.old.post to result self.new.post }
        ensures last { self.new.last ≡ self.old.last }
    {
        self.post.close(to)
    }

    /// Opens a coregion, as [`Post::open_coregion`] does.
    pub fn open_coregion(&mut self) -> Result<(), RegionError>
        ensures ok { OnOk result (self.new ≡ record self.old {
          post = record self.old.post { region = greatest_region (line_of self.old.post) + 1 };
        }) }
        ensures open { (result ≡ Err CoregionOpen) ↔ (0 < self.old.post.region) }
        ensures not_open { (result ≡ Err CoregionNotOpen) → ⊥ }
        ensures err { OnErr result (self.new ≡ self.old) }
    {
        self.post.open_coregion()
    }

    /// Closes the open coregion, as [`Post::close_coregion`] does.
    pub fn close_coregion(&mut self) -> Result<(), RegionError>
        ensures ok { OnOk result (self.new ≡ record self.old { post = record self.old.post { region = 0 } }) }
        ensures not_open { (result ≡ Err CoregionNotOpen) ↔ (self.old.post.region ≡ 0) }
        ensures open { (result ≡ Err CoregionOpen) → ⊥ }
        ensures err { OnErr result (self.new ≡ self.old) }
    {
        self.post.close_coregion()
    }

    /// The number of further events for which its line has memory, as [`Post::room`] returns it.
    pub fn room(&self) -> usize
        ensures { result ≡ self.now.post.room }
    {
        self.post.room()
    }

    /// Makes room for at least `events` further events, at most [`chart::MAX_EVENTS`], as [`Post::reserve`] does.
    pub fn reserve(&mut self, events: usize) -> Result<(), Memory>
        requires { events ≤ MAX_EVENTS }
        ensures ok { OnOk result (self.new ≡ record self.old {
          post = record self.old.post { room = max self.old.post.room events };
        }) }
        ensures err { OnErr result (self.new ≡ self.old) }
    {
        self.post.reserve(events)
    }
}
