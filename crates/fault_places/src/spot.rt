//! The place of a fault in its line.
ghost use Rattle.std.specs.Prelude.{◌≡◌, ◌≤◌, length};
ghost use Rattle.fault_places.specs.Spots.{spot_of};

use crate::cutting::cut_word;
use crate::seeking::{inner, instead, is_wrong};
use crate::want::{Want, next};
use texts::Cause;

/// A place in a line, and what may be there.
#[derive(Clone, Copy, Debug, PartialEq, Eq)]
pub struct Spot {
    /// The number of bytes of the line before the place.
    pub place: usize,
    pub want: Want,
}

/// The place of the fault of this cause in a line. `begin` is what may be at the beginning of the line. The place is
/// the first word that has the fault, or that can't be where it is. If there is no such word, it is the line's end.
/// `known` is the first line of a schedule, which names its instances. For a chart it isn't read.
#[tactic(auto, unfolding(crate::specs::Spots::spot_of))]
pub fn spot_in(cause: Cause, known: &[u8], line: &[u8], begin: Want) -> Spot
    ensures spot { result ≡ spot_of cause known.now line.now begin }
    ensures within { result.place ≤ length line.now }
{
    let mut rest = line;
    let mut want = begin;
    let mut index = 0;
    let mut place = 0;
    'words: loop {
        let (word, more) = cut_word(rest);
        if is_wrong(cause, known, line, want, index, word) {
            return Spot {
                place: place + inner(cause).min(word.len()),
                want: instead(cause, want, word),
            };
        }
        let Some(behind) = next(want, word) else {
            return Spot { place, want };
        };
        let Some(more) = more else {
            return Spot {
                place: place + word.len(),
                want: behind,
            };
        };
        rest = more;
        want = behind;
        index += 1;
        place += word.len() + 1;
    }
}
