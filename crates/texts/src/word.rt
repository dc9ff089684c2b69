//! The words of a line.
ghost use Rattle.std.specs.Prelude.{◌≡◌, ◌<◌, ◌∷◌, [], length, MatchOption, IfSome};
ghost use Rattle.texts.specs.Lines.{words_of, name_or_cause};
ghost use Rattle.texts.specs.Shapes.{AreWords};

use crate::fault::Cause;
use crate::lines::cut_at;
use chart::Name;

/// The words of a line with few words. A word may be empty: between two adjacent spaces, or beside a space at an end of
/// the line.
#[derive(Clone, Copy, Debug)]
pub enum Words<'a> {
    One(&'a [u8]),
    Two(&'a [u8], &'a [u8]),
    Three(&'a [u8], &'a [u8], &'a [u8]),
    Four(&'a [u8], &'a [u8], &'a [u8], &'a [u8]),
    /// Five words or more.
    More,
}

/// The first word of a line, and the rest after its space, if there is one.
pub fn next_word(line: &[u8]) -> (&[u8], Option<&[u8]>)
    ensures words { MatchOption result.1
        (words_of line.now ≡ result.0.now ∷ [])
        (λ rest. words_of line.now ≡ result.0.now ∷ words_of rest.now) }
    ensures shorter { IfSome result.1 (λ rest. length rest.now < length line.now) }
{
    match cut_at(b' ', line) {
        None => (line, None),
        Some((word, rest)) => (word, Some(rest)),
    }
}

/// The words of a line.
pub fn words_in(line: &[u8]) -> Words<'_>
    ensures { AreWords result (words_of line.now) }
{
    let (first, rest) = next_word(line);
    let Some(rest) = rest else {
        return Words::One(first);
    };
    let (second, rest) = next_word(rest);
    let Some(rest) = rest else {
        return Words::Two(first, second);
    };
    let (third, rest) = next_word(rest);
    let Some(rest) = rest else {
        return Words::Three(first, second, third);
    };
    let (fourth, rest) = next_word(rest);
    match rest {
        None => Words::Four(first, second, third, fourth),
        Some(_) => Words::More,
    }
}

/// The word as a name, or the first of F1 to F4 that applies.
pub fn name_in(word: &[u8]) -> Result<Name, Cause>
    ensures { result ≡ name_or_cause word.now }
{
    Name::new(word).map_err(Cause::Name)
}
