//! The first line that an expression matches, though it isn't read.
ghost use Rattle.std.specs.Prelude.{◌≡◌, length, map, option_map, IfOk};
ghost use Rattle.regex.specs.Bytes.{matcher_pattern, regex_pattern, regex_names};
ghost use Rattle.regex.specs.Locations.{location_count};
ghost use Rattle.log_lines.specs.Reading.{all_lines};
ghost use Rattle.log_formats.specs.Patterns.Groups.{AreAmong};
ghost use Rattle.log_formats.specs.Patterns.PatternReading.{pattern_step};
ghost use Rattle.log_formats.specs.Patterns.Unread.{pattern_unread, unread_line_view, first_unread_from, first_unread};

use crate::patterns::expression::Expression;
use crate::patterns::search::{Search, found_at};
use crate::patterns::unread::Unread;
use log_lines::{LineRange, Place};
use std::alloc::{AllocError, Global};
use texts::next_line;

/// A line in which a match begins, though the line counts as one that doesn't match.
#[derive(Clone, Copy, Debug, PartialEq, Eq)]
pub struct UnreadLine<'a> {
    pub place: Place,
    /// Why the match isn't read.
    pub why: Unread<'a>,
}

/// The first such line of a text.
fn first_of_text<'a>(
    search: &mut Search<'_>,
    range: LineRange,
    text: usize,
    bytes: &'a [u8],
) -> Option<UnreadLine<'a>>
    requires { AreAmong (location_count search.old.locations) search.old.groups }
    ensures first { option_map unread_line_view result
        ≡ first_unread_from (pattern_step search.old.groups search.old.more (matcher_pattern search.old.matcher))
        (pattern_unread search.old.groups search.old.more (matcher_pattern search.old.matcher)) range text 1 0 (all_lines bytes.now) }
    ensures pattern { matcher_pattern search.new.matcher ≡ matcher_pattern search.old.matcher }
    ensures groups { search.new.groups ≡ search.old.groups }
    ensures more { search.new.more ≡ search.old.more }
    ensures among { AreAmong (location_count search.new.locations) search.new.groups }
{
    let mut rest = bytes;
    let mut number = 1;
    let mut taken = 0;
    'lines: loop {
        let found = found_at(search, range, number, taken, rest);
        if let Some(why) = found.unread {
            return Some(UnreadLine {
                place: Place { text, line: number },
                why,
            });
        }
        taken = found.step.takes;
        match next_line(rest) {
            None => break,
            Some((_, after)) => {
                rest = after;
                number += 1;
            }
        }
    }
    None
}

/// The first line in which a match begins, though the line counts as one that doesn't match, and why. It searches as
/// [`read_by`](crate::patterns::read_by) does. It fails only if there is no memory.
#[tactic(auto, unfolding(crate::specs::Patterns::Unread::first_unread))]
pub fn first_unread<'a>(
    alloc: Global,
    expression: &Expression,
    range: LineRange,
    texts: &[&'a [u8]],
) -> Result<Option<UnreadLine<'a>>, AllocError>
    requires { AreAmong (length (regex_names expression.now.regex)) expression.now.groups }
    ensures { IfOk result (λ line. option_map unread_line_view line
        ≡ first_unread expression.now.groups expression.now.more (regex_pattern expression.now.regex) range (map (λ text. text.now) texts.now)) }
{
    let mut search = Search::new(alloc, expression)?;
    for (number, text) in texts.iter().enumerate() {
        if let Some(line) = first_of_text(&mut search, range, number, *text) {
            return Ok(Some(line));
        }
    }
    Ok(None)
}
