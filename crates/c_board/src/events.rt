//! The line of a post, event by event.
ghost use Rattle.std.specs.Prelude.{◌≡◌, Some};
ghost use Rattle.chart.specs.Events.{name_of, ith};
ghost use Rattle.board.specs.Views.{line_of};
ghost use Rattle.c_board.specs.Copying.{put_over};
ghost use Rattle.c_board.specs.EventInfos.{event_info, CopiesEvent, HandleCopies, of_unseen};

use crate::copying::copy_out;
use crate::found::EventInfo;
use crate::handle::Handle;
use crate::kept::Kept;
use crate::misuse::{Misuse, Numbering};
use crate::numbered::Numbered;
use crate::post_state::PostState;
use chart::Event;

/// Why no event is described.
#[derive(Clone, Copy)]
pub enum EventRefusal {
    /// The handle keeps no post.
    Misuse(Misuse),
    /// F31: the line has no event of this number.
    NoEvent,
}

impl Numbered for EventRefusal {
    ghost number = { of_unseen };

    #[inline(always)]
    fn number(self, misuses: Numbering) -> u32 {
        match self {
            EventRefusal::Misuse(misuse) => misuse.number(misuses),
            EventRefusal::NoEvent => 31,
        }
    }
}

/// Describes an event, and copies its name out, as much as there is room for.
fn copy_event(event: &Event, out: &mut [u8]) -> EventInfo
    ensures output { result ≡ event_info event.now }
    ensures copied { out.new ≡ put_over (name_of event.now) out.old }
{
    let name = event.name();
    let receives = match event {
        Event::Send { .. } => false,
        Event::Receive { .. } => true,
    };
    EventInfo {
        receives,
        partner: event.partner().number() as u32,
        region: event.region(),
        name: copy_out(name.as_bytes(), out),
    }
}

impl PostState {
    /// Describes the event with this number, from 1. F31: there is no such event.
    fn event(&self, number: u32, out: &mut [u8]) -> Result<EventInfo, EventRefusal>
        ensures { CopiesEvent (ith (line_of self.now.post) number) out.old result out.new }
    {
        let line = self.parked.line();
        let number = number as usize;
        if number == 0 || number > line.len() {
            return Err(EventRefusal::NoEvent);
        }
        Ok(copy_event(&line.event(number - 1), out))
    }
}

impl Kept {
    fn event(&self, number: u32, out: &mut [u8]) -> Result<EventInfo, EventRefusal>
        ensures { HandleCopies (Some self.now) number out.old result out.new }
    {
        let Some(post) = self.post() else {
            return Err(EventRefusal::Misuse(Misuse::NoPost));
        };
        post.event(number, out)
    }
}

impl Handle {
    /// Describes the event with this number, from 1, on the post's line. It copies the event's name out, as much as
    /// there is room for. F31: there is no such event.
    pub fn event(&mut self, number: u32, out: &mut [u8]) -> Result<EventInfo, EventRefusal>
        ensures same { self.new.slot.value ≡ self.old.slot.value }
        ensures answer { HandleCopies self.old.slot.value number out.old result out.new }
    {
        if self.is_empty() {
            return Err(EventRefusal::Misuse(Misuse::NoPost));
        }
        let kept = self.slot.get_mut();
        kept.event(number, out)
    }
}
