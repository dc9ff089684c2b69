//! Logs that are read by an expression.
ghost use Rattle.std.specs.Prelude.{◌≡◌, length, map, IfOk, OnOk};
ghost use Rattle.regex.specs.Bytes.{matcher_pattern, regex_pattern, regex_names};
ghost use Rattle.regex.specs.Locations.{location_count};
ghost use Rattle.log_formats.specs.Patterns.Groups.{AreAmong};
ghost use Rattle.log_formats.specs.Patterns.PatternReading.{pattern_step, pattern_read};
ghost use Rattle.log_lines.specs.Reading.{read_view, with_line, all_lines};
ghost use Rattle.log_lines.specs.Windows.{with_windows};

use crate::patterns::expression::Expression;
use crate::patterns::search::{Search, found_at};
use log_lines::{LineRange, Place, Read};
use std::alloc::{AllocError, Global};
use texts::next_line;

/// Adds the lines of a text.
fn add_text<'a>(
    search: &mut Search<'_>,
    range: LineRange,
    text: usize,
    bytes: &'a [u8],
    read: &mut Read<'a>,
) -> Result<(), AllocError>
    requires { AreAmong (location_count search.old.locations) search.old.groups }
    ensures read { OnOk result (read_view read.new
        ≡ with_windows (pattern_step search.old.groups search.old.more (matcher_pattern search.old.matcher)) range text 1 0 (all_lines bytes.now) (read_view read.old)) }
    ensures pattern { matcher_pattern search.new.matcher ≡ matcher_pattern search.old.matcher }
    ensures groups { search.new.groups ≡ search.old.groups }
    ensures more { search.new.more ≡ search.old.more }
    ensures among { AreAmong (location_count search.new.locations) search.new.groups }
{
    let mut rest = bytes;
    let mut number = 1;
    let mut taken = 0;
    'lines: loop {
        let found = found_at(search, range, number, taken, rest);
        read.add(Place { text, line: number }, found.step.says)?;
        taken = found.step.takes;
        match next_line(rest) {
            None => break,
            Some((_, after)) => {
                rest = after;
                number += 1;
            }
        }
    }
    Ok(())
}

/// Reads the texts of a log by an expression. The expression is searched in each line, or in as many lines as it has
/// line feeds and one more. The first match counts if it begins in the first of these lines, and takes the lines that
/// it touches. By its groups it is an event of a host, a captured message or an event with its vector time. All other
/// lines that aren't blank are counted as not read. It fails only if there is no memory.
#[tactic(auto, unfolding(crate::specs::Patterns::PatternReading::pattern_read))]
pub fn read_by<'a>(
    alloc: Global,
    expression: &Expression,
    range: LineRange,
    texts: &[&'a [u8]],
) -> Result<Read<'a>, AllocError>
    requires { AreAmong (length (regex_names expression.now.regex)) expression.now.groups }
    ensures { IfOk result (λ read. read_view read
        ≡ pattern_read expression.now.groups expression.now.more (regex_pattern expression.now.regex) range (map (λ text. text.now) texts.now)) }
{
    let mut search = Search::new(alloc, expression)?;
    let mut read = Read::new(alloc);
    for (number, text) in texts.iter().enumerate() {
        add_text(&mut search, range, number, *text, &mut read)?;
    }
    Ok(read)
}
