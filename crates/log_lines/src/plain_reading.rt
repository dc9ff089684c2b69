//! Reads logs of applications.
ghost use Rattle.std.specs.Prelude.{◌≡◌, if◌then◌else◌, map, IfOk, OnOk};
ghost use Rattle.log_lines.specs.Events.{line_view};
ghost use Rattle.log_lines.specs.Plain.{line_by};
ghost use Rattle.log_lines.specs.PlainReading.{plain_line, plain_read};
ghost use Rattle.log_lines.specs.Reading.{read_view, is_within, with_line, with_lines, all_lines};

use crate::event::{LineSays, Place};
use crate::plain::line_by;
use crate::range::{LineRange, is_within};
use crate::read::Read;
use crate::words::words_of;
use std::alloc::{AllocError, Global};
use texts::next_line;

/// The meaning of a line.
#[tactic(auto, unfolding(crate::specs::PlainReading::plain_line))]
fn plain_line(alloc: Global, line: &[u8]) -> Result<LineSays<'_>, AllocError>
    ensures { IfOk result (λ says. line_view says ≡ plain_line line.now) }
{
    let words = words_of(alloc, line)?;
    Ok(line_by(&words))
}

/// Adds a line, if it is within the range.
fn add_line<'a>(
    alloc: Global,
    range: LineRange,
    place: Place,
    line: &'a [u8],
    read: &mut Read<'a>,
) -> Result<(), AllocError>
    ensures { OnOk result (read_view read.new
        ≡ (if is_within range place.line then with_line place (plain_line line.now) (read_view read.old) else read_view read.old)) }
{
    if !is_within(range, place.line) {
        return Ok(());
    }
    let says = plain_line(alloc, line)?;
    read.add(place, says)
}

/// Adds the lines of a text.
fn add_text<'a>(
    alloc: Global,
    range: LineRange,
    text: usize,
    bytes: &'a [u8],
    read: &mut Read<'a>,
) -> Result<(), AllocError>
    ensures { OnOk result (read_view read.new ≡ with_lines plain_line range text 1 (all_lines bytes.now) (read_view read.old)) }
{
    let mut rest = bytes;
    let mut number = 1;
    'lines: loop {
        match next_line(rest) {
            None => break,
            Some((line, after)) => {
                add_line(alloc, range, Place { text, line: number }, line, read)?;
                rest = after;
                number += 1;
            }
        }
    }
    add_line(alloc, range, Place { text, line: number }, rest, read)?;
    Ok(())
}

/// The meaning of the texts of an application's log. Each line `HOST DIR [to or from] PEER NAME [ID] [REST]` is an
/// event of HOST. DIR is case-insensitive: `send`, `sent`, `tx`, `out`, `->` or `>` for a send, and `recv`, `receive`,
/// `received`, `rx`, `in`, `<-` or `<` for a receive. A line without a word is ignored, and so is one whose DIR is
/// `arrive`. Any other line isn't read, and is counted. It takes time in proportion to the texts.
#[tactic(auto, unfolding(crate::specs::PlainReading::plain_read))]
pub fn read_plain<'a>(
    alloc: Global,
    range: LineRange,
    texts: &[&'a [u8]],
) -> Result<Read<'a>, AllocError>
    ensures { IfOk result (λ read. read_view read ≡ plain_read range (map (λ text. text.now) texts.now)) }
{
    let mut read = Read::new(alloc);
    for (number, text) in texts.iter().enumerate() {
        add_text(alloc, range, number, *text, &mut read)?;
    }
    Ok(read)
}
