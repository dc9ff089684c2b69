//! The number of lines that are read of a log's texts.
ghost use Rattle.std.specs.Prelude.{◌≡◌, map, IfOk};
ghost use Rattle.cmd_import_log.specs.Counting.{count_of_lines, lines_within, lines_read};
ghost use Rattle.texts.specs.Lines.{lines_of, end_of};

use log_lines::LineRange;
use std::alloc::AllocError;
use texts::next_line;

/// The number of lines of a text. The text after the last line feed is a line too, unless it is empty.
#[tactic(auto, unfolding(crate::specs::Counting::count_of_lines))]
fn count_of_lines(text: &[u8]) -> u64
    ensures { result ≡ count_of_lines text.now }
{
    let mut rest = text;
    let mut count = 0;
    'lines: while let Some((_, below)) = next_line(rest) {
        rest = below;
        count += 1;
    }
    if rest.is_empty() { count } else { count + 1 }
}

/// The number of these lines that are in the range.
#[tactic(auto, unfolding(crate::specs::Counting::lines_within))]
fn lines_within(range: LineRange, text: &[u8]) -> u64
    ensures { result ≡ lines_within range text.now }
{
    let last = count_of_lines(text).min(range.last);
    last.saturating_sub(range.first.saturating_sub(1))
}

/// The number of lines of these texts that are in the range. It fails if the number doesn't fit.
pub(crate) fn lines_read(range: LineRange, texts: &[&[u8]]) -> Result<u64, AllocError>
    ensures { IfOk result (λ lines. lines ≡ lines_read range (map (λ text. text.now) texts.now)) }
{
    let mut lines: u64 = 0;
    for text in texts {
        match lines.checked_add(lines_within(range, *text)) {
            Some(more) => lines = more,
            None => return Err(AllocError),
        }
    }
    Ok(lines)
}
