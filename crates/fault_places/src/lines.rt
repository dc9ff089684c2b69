//! The lines of a text, by their numbers.
ghost use Rattle.std.specs.Prelude.{◌≡◌, ◌-◌, ◌≤◌, length, take, drop};
ghost use Rattle.fault_places.specs.Standings.{behind, want_behind, line_at, first_or, event_from};
ghost use Rattle.fault_places.specs.declared.want.Want.TheVariants.{Msc};
ghost use Rattle.texts.specs.Lines.{lines_of, end_of};

use crate::cutting::first_word;
use crate::want::{Want, is};
use texts::next_line;

/// What may be at the beginning of a chart's line, and the text from this line on.
#[derive(Clone, Copy, Debug)]
pub struct Standing<'a> {
    pub want: Want,
    pub text: &'a [u8],
}

/// What may begin the line after one that begins with this word.
#[tactic(auto, unfolding(crate::specs::Standings::behind))]
fn behind(want: Want, word: &[u8]) -> Want
    ensures { result ≡ behind want word.now }
{
    if is(word, b"msc") || is(word, b"endinstance;") {
        return Want::InstanceOrEnd;
    }
    if is(word, b"instance") || is(word, b"endconcurrent;") {
        return Want::Event;
    }
    if is(word, b"concurrent;") {
        return Want::OpenedEvent;
    }
    if is(word, b"endmsc;") {
        return Want::ChartEnd;
    }
    if is(word, b"in") && want == Want::OpenedEvent {
        return Want::HeldEvent;
    }
    want
}

/// What may begin the line after this line of a chart.
fn want_behind(want: Want, line: &[u8]) -> Want
    ensures { result ≡ want_behind want line.now }
{
    behind(want, first_word(line))
}

/// The text from the line with this number on, from 1, and what may begin this line of a chart. If the text has fewer
/// lines, it is the text after the last line feed.
pub fn standing_at(text: &[u8], number: u64) -> Standing<'_>
    ensures want { result.want ≡ line_at Msc (take (number - 1) (lines_of text.now)) }
    ensures lines { lines_of result.text.now ≡ drop (number - 1) (lines_of text.now) }
    ensures end { end_of result.text.now ≡ end_of text.now }
{
    let mut want = Want::Msc;
    let mut rest = text;
    let mut left = number.saturating_sub(1);
    'lines: while left > 0 {
        let Some((line, below)) = next_line(rest) else {
            return Standing { want, text: rest };
        };
        want = want_behind(want, line);
        rest = below;
        left -= 1;
    }
    Standing { want, text: rest }
}

/// The first line of a text, without its line feed, or the whole text if it has no line feed.
pub fn line_from(text: &[u8]) -> &[u8]
    ensures { result.now ≡ first_or (end_of text.now) (lines_of text.now) }
{
    match next_line(text) {
        Some((line, _)) => line,
        None => text,
    }
}

/// The number of line feeds in a text.
pub fn count_of_lines(text: &[u8]) -> u64
    ensures lines { result ≡ length (lines_of text.now) }
    ensures within { result ≤ length text.now }
{
    let mut rest = text;
    let mut count = 0;
    'lines: while let Some((_, below)) = next_line(rest) {
        rest = below;
        count += 1;
    }
    count
}

/// The number of the line that has an event in a chart's text, from 1. The event has the number `index` on the line of
/// the instance with the number `instance`. If there is no such event, it is one more than the number of lines.
pub fn line_of_event(text: &[u8], instance: usize, index: u32) -> u64
    ensures { result ≡ event_from instance index 0 0 1 (lines_of text.now) }
{
    let mut rest = text;
    let mut heads: usize = 0;
    let mut events: u64 = 0;
    let mut number = 1;
    'lines: while let Some((line, below)) = next_line(rest) {
        let word = first_word(line);
        if is(word, b"instance") {
            heads += 1;
            events = 0;
        }
        if is(word, b"in") || is(word, b"out") {
            events += 1;
            if heads == instance && events == u64::from(index) {
                return number;
            }
        }
        rest = below;
        number += 1;
    }
    number
}
