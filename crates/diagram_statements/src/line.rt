//! Lines, with their places.
ghost use Rattle.std.specs.Prelude.{◌≡◌, ◌≤◌, ◌<◌, ◌+◌, ◌^◌, length, suc, drop};
ghost use Rattle.diagram_statements.specs.Statements.{line_view};
ghost use Rattle.diagram_statements.specs.Lines.{after, front_of, stripped_line, line_place, line_length, first_line};

use crate::statement::Place;
use texts::{blank_length, end_stripped, first_place};

/// Words of a text, and the place of their first byte.
#[derive(Clone, Copy, Debug)]
pub struct Line<'a> {
    /// From 1.
    pub number: u64,
    /// In bytes, from 1.
    pub column: u64,
    pub words: &'a [u8],
}

impl<'a> Line<'a> {
    /// The place of its first byte.
    pub fn place(&self) -> Place
        ensures { result ≡ line_place (line_view self.now) }
    {
        Place {
            line: self.number,
            column: self.column,
        }
    }

    /// The rest of the line after its first `count` bytes.
    pub fn after(self, count: usize) -> Line<'a>
        requires within { count ≤ length self.words.now }
        requires room { self.column + length self.words.now < 2 ^ 64 }
        ensures line { line_view result ≡ after count (line_view self.entry) }
        ensures room { result.column + length result.words.now ≡ self.entry.column + length self.entry.words.now }
        ensures shorter { length result.words.now + count ≡ length self.entry.words.now }
    {
        Line {
            number: self.number,
            column: self.column + count as u64,
            words: &self.words[count..],
        }
    }

    /// The line without the blanks at its ends.
    #[tactic(auto, unfolding(crate::specs::Lines::stripped_line, texts::specs::Words::stripped, texts::specs::Words::behind_blanks))]
    pub fn stripped(self) -> Line<'a>
        requires { self.column + length self.words.now < 2 ^ 64 }
        ensures line { line_view result ≡ stripped_line (line_view self.entry) }
        ensures room { result.column + length result.words.now ≤ self.entry.column + length self.entry.words.now }
        ensures shorter { length result.words.now ≤ length self.entry.words.now }
    {
        let blanks = blank_length(self.words);
        Line {
            number: self.number,
            column: self.column + blanks as u64,
            words: end_stripped(&self.words[blanks..]),
        }
    }

    /// Its first `count` bytes, without the blanks at their ends.
    #[tactic(auto, unfolding(crate::specs::Lines::front_of))]
    pub fn front(self, count: usize) -> Line<'a>
        requires within { count ≤ length self.words.now }
        requires room { self.column + length self.words.now < 2 ^ 64 }
        ensures { line_view result ≡ front_of count (line_view self.entry) }
    {
        let front = Line {
            number: self.number,
            column: self.column,
            words: &self.words[..count],
        };
        front.stripped()
    }
}

/// The number of bytes before the first line feed, or before the end.
#[tactic(auto, unfolding(crate::specs::Lines::line_length))]
pub fn line_length(text: &[u8]) -> usize
    ensures value { result ≡ line_length text.now }
    ensures within { result ≤ length text.now }
{
    match first_place(b'\n', text) {
        None => text.len(),
        Some(place) => place,
    }
}

/// The first line of a text, with this number and without the blanks at its ends.
#[tactic(auto, unfolding(crate::specs::Lines::stripped_line))]
pub fn first_line(number: u64, text: &[u8]) -> Line<'_>
    ensures line { line_view result ≡ first_line number text.now }
    ensures number { result.number ≡ number }
    ensures room { result.column + length result.words.now ≤ 1 + length text.now }
{
    let line = Line {
        number,
        column: 1,
        words: &text[..line_length(text)],
    };
    line.stripped()
}

/// The text after its first line.
#[tactic(auto, using(texts::proofs::ByteLoops::drop_all))]
pub fn behind_line(text: &[u8]) -> &[u8]
    ensures value { result.now ≡ drop (suc (line_length text.now)) text.now }
    ensures shorter { 0 < length text.now → length result.now < length text.now }
{
    let length = line_length(text);
    if length < text.len() {
        &text[length + 1..]
    } else {
        &[]
    }
}
