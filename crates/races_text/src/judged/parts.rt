//! The earlier events of a receive, in parts that have one verdict.
ghost use Rattle.std.specs.Prelude.{◌≡◌, ◌++◌, ◌<◌, true, false, None, [], All, MatchOption};
ghost use Rattle.races_text.specs.Named.Stretches.{IsShort};
ghost use Rattle.races_text.specs.Judged.Parts.{IsPart, events_in};
ghost use Rattle.races_text.specs.Judged.PartsLeft.{later_events, events_left, AreLeft, IsNextPart};

use crate::judged::part::Part;
use crate::judged::verdicts::Verdicts;
use crate::named::{KeptEvents, behind, no_events};
use chart::{EventNo, EventRange};

/// The earlier events of a receive that are still to come. The verdict of the first ones is known.
#[derive(Drop)]
pub struct PartsLeft<'a> {
    /// The first of these events, as far as they are known to have one verdict.
    next: Option<Part>,
    /// The rest of their range.
    rest: EventRange,
    kept: KeptEvents<'a>,
}

/// Whether there is an event whose verdict isn't known yet. If so, its range has begun.
fn has_later(left: &mut PartsLeft<'_>) -> bool
    requires { IsShort left.old.rest }
    ensures short { IsShort left.new.rest }
    ensures next { left.new.next ≡ left.old.next }
    ensures same { later_events left.new ≡ later_events left.old }
    ensures some { result ≡ true → 0 < left.new.rest.count }
    ensures none { result ≡ false → later_events left.old ≡ [] }
{
    if left.rest.count > 0 {
        return true;
    }
    match left.kept.next_stretch() {
        Some(stretch) => {
            left.rest = stretch;
            true
        }
        None => false,
    }
}

/// The next events that are known at once to have one verdict.
fn next_piece<V: Verdicts>(
    verdicts: &V,
    receive: &EventNo,
    left: &mut PartsLeft<'_>,
) -> Option<Part>
    requires short { IsShort left.old.rest }
    requires races { All (V.is_race verdicts.now receive.now) (later_events left.old) }
    ensures short { IsShort left.new.rest }
    ensures next { left.new.next ≡ left.old.next }
    ensures races { All (V.is_race verdicts.now receive.now) (later_events left.new) }
    ensures events { MatchOption result ((later_events left.old ≡ []) × (later_events left.new ≡ []))
        (λ piece. later_events left.old ≡ events_in piece ++ later_events left.new) }
    ensures piece { MatchOption result (later_events left.old ≡ []) (IsPart (V.is_verdict verdicts.now receive.now)) }
{
    if !has_later(left) {
        return None;
    }
    let piece = verdicts.verdict_of_first(receive, &left.rest);
    left.rest = behind(&left.rest, piece.range.count);
    Some(piece)
}

/// Begins the parts of these events.
pub fn parts_of<'a, V: Verdicts>(
    verdicts: &V,
    receive: &EventNo,
    kept: KeptEvents<'a>,
) -> PartsLeft<'a>
    requires { All (V.is_race verdicts.now receive.now) kept }
    ensures left { AreLeft (V.is_race verdicts.now receive.now) (V.is_verdict verdicts.now receive.now) result }
    ensures events { events_left result ≡ kept.entry }
{
    let mut left = PartsLeft {
        next: None,
        rest: no_events(),
        kept,
    };
    let next = next_piece(verdicts, receive, &mut left);
    left.next = next;
    left
}

/// The next part: as many neighbours as possible, from the next event on, that have one verdict. It takes no memory.
pub fn next_part<V: Verdicts>(
    verdicts: &V,
    receive: &EventNo,
    left: &mut PartsLeft<'_>,
) -> Option<Part>
    requires { AreLeft (V.is_race verdicts.now receive.now) (V.is_verdict verdicts.now receive.now) left.old }
    ensures left { AreLeft (V.is_race verdicts.now receive.now) (V.is_verdict verdicts.now receive.now) left.new }
    ensures part { MatchOption result (events_left left.old ≡ [])
        (IsNextPart (V.is_verdict verdicts.now receive.now) left.old left.new) }
{
    let mut part = left.next?;
    'pieces: while let Some(piece) = next_piece(verdicts, receive, left) {
        if !part.goes_on(&piece) {
            left.next = Some(piece);
            return Some(part);
        }
        part = part.with(&piece);
    }
    left.next = None;
    Some(part)
}
