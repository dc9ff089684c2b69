//! The words of a line, one after another.
ghost use Rattle.std.specs.Prelude.{◌≡◌, ◌<◌, ◌+◌, ◌==◌, ◌∷◌, [], length, position, MatchOption, IfSome};
ghost use Rattle.fault_places.specs.Spots.{first_of, behind_first, is_among};
ghost use Rattle.texts.specs.Lines.{words_of};

use crate::want::is;

/// The index of the first space, from 0.
fn place_of_space(line: &[u8]) -> Option<usize>
    ensures value { result ≡ position (λ b. b == 32) line.now }
    ensures within { IfSome result (λ place. place < length line.now) }
{
    line.iter().position(|byte| *byte == b' ')
}

/// The first word of a line, and the bytes after the space that ends it, if there is one.
pub(crate) fn cut_word(line: &[u8]) -> (&[u8], Option<&[u8]>)
    ensures words { MatchOption result.1
        (words_of line.now ≡ result.0.now ∷ [])
        (λ rest. words_of line.now ≡ result.0.now ∷ words_of rest.now) }
    ensures lengths { MatchOption result.1
        (length line.now ≡ length result.0.now)
        (λ rest. length line.now ≡ length result.0.now + 1 + length rest.now) }
{
    match place_of_space(line) {
        None => (line, None),
        Some(place) => (&line[..place], Some(&line[place + 1..])),
    }
}

/// The first word of a line.
pub(crate) fn first_word(line: &[u8]) -> &[u8]
    ensures { result.now ≡ first_of (words_of line.now) }
{
    match cut_word(line) {
        (word, None) => word,
        (word, Some(_)) => word,
    }
}

/// Whether the word is among the first `count` of these words.
fn is_among(word: &[u8], words: &[u8], count: usize) -> bool
    ensures { result ≡ is_among word.now count (words_of words.now) }
{
    let mut rest = words;
    let mut left = count;
    'words: while left > 0 {
        let (other, more) = cut_word(rest);
        if is(word, other) {
            return true;
        }
        let Some(more) = more else {
            return false;
        };
        rest = more;
        left -= 1;
    }
    false
}

/// Whether the word is among the first `count` words after the first word of a line.
pub(crate) fn is_named(word: &[u8], line: &[u8], count: usize) -> bool
    ensures { result ≡ is_among word.now count (behind_first (words_of line.now)) }
{
    match cut_word(line) {
        (_, None) => false,
        (_, Some(words)) => is_among(word, words, count),
    }
}
