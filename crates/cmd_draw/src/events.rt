//! The range of events to draw, as a word of a command line gives it.
ghost use Rattle.std.specs.Prelude.{◌≡◌, ◌∷◌, ◌++◌, ℕ, true, List, MatchOption, IfSome};
ghost use Rattle.std.specs.List.{list_all};
ghost use Rattle.std.specs.Char.{is_ascii_digit};
ghost use Rattle.cmd_draw.specs.Spans.{AreEvents};

use cmd_base::number_in;

/// A range of events, rows or lines: the numbers of the first and the last, from 1.
#[derive(Clone, Copy, Debug, PartialEq, Eq)]
pub struct Events {
    pub first: u32,
    pub last: u32,
}

impl Events {
    /// All events, rows or lines.
    pub const ALL: Events = Events {
        first: 1,
        last: u32::MAX,
    };
}

/// Splits a word at its first dot, if a second dot follows: the part before both dots, and the part after them.
fn round_dots(word: &str) -> Option<(&str, &str)>
    ensures cut { IfSome result (λ cut. word.now ≡ cut.0.now ++ (46 ∷ 46 ∷ cut.1.now)) }
    ensures only { (first last : List ℕ) → word.now ≡ first ++ (46 ∷ 46 ∷ last) → list_all is_ascii_digit first ≡ true
        → MatchOption result ⊥ (λ cut. (cut.0.now ≡ first) × (cut.1.now ≡ last)) }
{
    let (first, rest) = word.split_once('.')?;
    let last = rest.strip_prefix('.')?;
    Some((first, last))
}

/// The range of events that a word `A..B` gives. Both numbers consist of decimal digits only, without a sign, and have
/// at most 32 bits. They may have leading zeros. The first is at least 1 and not above the second.
pub fn events_in(word: &str) -> Option<Events>
    ensures { MatchOption result ((events : Events) → AreEvents word.now events → ⊥) (AreEvents word.now) }
{
    let (first, last) = round_dots(word)?;
    match (number_in(first), number_in(last)) {
        (Some(first), Some(last)) if 1 <= first && first <= last && last <= u64::from(u32::MAX) => {
            Some(Events {
                first: first as u32,
                last: last as u32,
            })
        }
        _ => None,
    }
}
