//! Copies out what a handle keeps.
ghost use Rattle.std.specs.Prelude.{◌≡◌, length, Some};
ghost use Rattle.c_board.specs.Came.{IsSeen, picked};
ghost use Rattle.c_board.specs.Contents.{post_in};
ghost use Rattle.c_board.specs.Copying.{put_over, arrival_in, IsSeenIn, name_in, body_in, CopiesOut, CopiesRaces};
ghost use Rattle.c_board.specs.Copying.{counted, indices};

use crate::came::Which;
use crate::handle::Handle;
use crate::kept::Kept;
use crate::misuse::Misuse;
use crate::post_state::PostState;
use board::Arrival;
use chart::EventRanges;

/// Writes the first of these bytes, as many as there is room for, and returns how many bytes there are.
#[inline(never)]
pub fn copy_out(bytes: &[u8], out: &mut [u8]) -> usize
    ensures all { result ≡ length bytes.now }
    ensures copied { out.new ≡ put_over bytes.now out.old }
{
    let many = bytes.len().min(out.len());
    out[..many].copy_from_slice(&bytes[..many]);
    bytes.len()
}

/// Writes the numbers of the first of these events, as many as there is room for, and returns how many events there
/// are.
pub fn copy_events(events: &EventRanges, out: &mut [u32]) -> usize
    ensures all { result ≡ counted events.now }
    ensures copied { out.new ≡ put_over (indices events.now) out.old }
{
    let mut place = 0;
    for event in events.iter() {
        if place == out.len() {
            break;
        }
        out[place] = event.index;
        place += 1;
    }
    events.len()
}

impl PostState {
    /// The message that `which` selects among those received last.
    fn arrival(&self, which: Which) -> Option<&Arrival>
        ensures { IsSeen (picked which self.now.came) result }
    {
        self.came.pick(which)
    }
}

impl Kept {
    /// The message that `which` selects among those that the post received last.
    fn arrival(&self, which: Which) -> Result<&Arrival, Misuse>
        ensures { IsSeenIn (arrival_in which (post_in (Some self.now))) result }
    {
        let Some(post) = self.post() else {
            return Err(Misuse::NoPost);
        };
        match post.arrival(which) {
            Some(arrival) => Ok(arrival),
            None => Err(Misuse::NoMessage),
        }
    }

    fn copy_name(&self, which: Which, out: &mut [u8]) -> Result<usize, Misuse>
        ensures { CopiesOut name_in (arrival_in which (post_in (Some self.now))) out.old result out.new }
    {
        let arrival = match self.arrival(which) {
            Ok(arrival) => arrival,
            Err(misuse) => return Err(misuse),
        };
        let name = arrival.message.name();
        Ok(copy_out(name.as_bytes(), out))
    }

    fn copy_body(&self, which: Which, out: &mut [u8]) -> Result<usize, Misuse>
        ensures { CopiesOut body_in (arrival_in which (post_in (Some self.now))) out.old result out.new }
    {
        let arrival = match self.arrival(which) {
            Ok(arrival) => arrival,
            Err(misuse) => return Err(misuse),
        };
        Ok(copy_out(arrival.message.body(), out))
    }

    fn copy_races(&self, which: Which, out: &mut [u32]) -> Result<usize, Misuse>
        ensures { CopiesRaces (arrival_in which (post_in (Some self.now))) out.old result out.new }
    {
        let arrival = match self.arrival(which) {
            Ok(arrival) => arrival,
            Err(misuse) => return Err(misuse),
        };
        Ok(copy_events(arrival.report.earlier(), out))
    }
}

impl Handle {
    /// Copies out the name of one of the messages that were received last, as many bytes as there is room for. It
    /// returns how many bytes the name has.
    pub fn copy_name(&mut self, which: Which, out: &mut [u8]) -> Result<usize, Misuse>
        ensures same { self.new.slot.value ≡ self.old.slot.value }
        ensures answer { CopiesOut name_in (arrival_in which (post_in self.old.slot.value)) out.old result out.new }
    {
        if self.is_empty() {
            return Err(Misuse::NoPost);
        }
        let kept = self.slot.get_mut();
        kept.copy_name(which, out)
    }

    /// Copies out the body of such a message, in the same way.
    pub fn copy_body(&mut self, which: Which, out: &mut [u8]) -> Result<usize, Misuse>
        ensures same { self.new.slot.value ≡ self.old.slot.value }
        ensures answer { CopiesOut body_in (arrival_in which (post_in self.old.slot.value)) out.old result out.new }
    {
        if self.is_empty() {
            return Err(Misuse::NoPost);
        }
        let kept = self.slot.get_mut();
        kept.copy_body(which, out)
    }

    /// Copies out the races of such a message: the numbers of the earlier events, as many as there is room for. It
    /// returns how many there are.
    pub fn copy_races(&mut self, which: Which, out: &mut [u32]) -> Result<usize, Misuse>
        ensures same { self.new.slot.value ≡ self.old.slot.value }
        ensures answer { CopiesRaces (arrival_in which (post_in self.old.slot.value)) out.old result out.new }
    {
        if self.is_empty() {
            return Err(Misuse::NoPost);
        }
        let kept = self.slot.get_mut();
        kept.copy_races(which, out)
    }
}
