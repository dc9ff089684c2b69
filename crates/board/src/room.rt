//! Room for a post's events.
ghost use Rattle.std.specs.Prelude.{◌≡◌, ◌≤◌, max, OnOk, OnErr};
ghost use Rattle.chart.specs.declared.line.TheConstants.{MAX_EVENTS};

use crate::error::Memory;
use crate::parked::Parked;
use crate::post::Post;
use chart::MAX_EVENTS;

impl Parked {
    /// The number of further events for which the post's line has memory. Each accepted event takes one place of this
    /// room, if there is one, and nothing else does. While there is room, a send on a board of up to
    /// [`clock::INLINE_ENTRIES`] instances needs no memory. This call takes no memory.
    pub fn room(&self) -> usize
        ensures { result ≡ self.now.room }
    {
        self.recorder.room()
    }

    /// Makes room for at least `events` further events; `events` is at most [`MAX_EVENTS`]. F6: a growth was refused,
    /// and then nothing has changed.
    pub fn reserve(&mut self, events: usize) -> Result<(), Memory>
        requires { events ≤ MAX_EVENTS }
        ensures ok { OnOk result (self.new ≡ record self.old { room = max self.old.room events }) }
        ensures err { OnErr result (self.new ≡ self.old) }
    {
        prove!(events <= MAX_EVENTS);
        self.recorder.reserve(events)?;
        Ok(())
    }
}

impl<'a> Post<'a> {
    /// The number of further events for which the post's line has memory. Each accepted event takes one place of this
    /// room, if there is one, and nothing else does. While there is room, a send on a board of up to
    /// [`clock::INLINE_ENTRIES`] instances needs no memory. This call takes no memory.
    pub fn room(&self) -> usize
        ensures { result ≡ self.now.room }
    {
        self.parked.room()
    }

    /// Makes room for at least `events` further events; `events` is at most [`MAX_EVENTS`]. F6: a growth was refused,
    /// and then nothing has changed.
    pub fn reserve(&mut self, events: usize) -> Result<(), Memory>
        requires { events ≤ MAX_EVENTS }
        ensures ok { OnOk result (self.new ≡ record self.old { room = max self.old.room events }) }
        ensures err { OnErr result (self.new ≡ self.old) }
    {
        self.parked.reserve(events)
    }
}
