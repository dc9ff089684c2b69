//! Typed texts, written as exact ones.
ghost use Rattle.std.specs.Prelude.{◌≡◌};
ghost use Rattle.cmd_base.specs.Answers.{Answers};
ghost use Rattle.texts.specs.Writing.{Wrote};
ghost use Rattle.cmd_tidy.specs.Tidying.{typed_line, typed_fault, tidy_exit, Tidies};

use crate::comments::Comments;
use crate::exact::exact_text;
use cmd_base::{ProgramError, Text, answered};
use std::alloc::{AllocError, Global};
use texts::{Fault, Out, TextBuffer, WriteError};

/// The number of the typed line for a line of the exact text. `lines` has the numbers of the typed lines that stay
/// ([`ExactText::lines`](crate::ExactText)).
pub fn typed_line(lines: &[u64], number: u64) -> u64
    ensures { result ≡ typed_line lines.now number }
{
    match lines.get(number.saturating_sub(1) as usize) {
        Some(line) => *line,
        None => number,
    }
}

/// A fault of the exact text, at its typed line.
fn typed_fault(lines: &[u64], fault: Fault) -> Fault
    ensures { result ≡ typed_fault lines.now fault }
{
    match fault {
        Fault::Line(number, cause) => Fault::Line(typed_line(lines, number), cause),
        Fault::Unfinished => Fault::Unfinished,
    }
}

#[tactic(auto, using(texts::proofs::Writes::joining))]
fn write_text<W: Out>(text: &[u8], out: &mut W) -> Result<(), WriteError>
    ensures { Wrote W.sink out.old out.new result text.now }
{
    let mut buffer = TextBuffer::new(out);
    buffer.add(text)?;
    buffer.finish()
}

/// Writes the exact text, if it is a schedule or a chart. All memory is taken before the first byte is written.
fn write_exact<W: Out>(alloc: Global, typed: &[u8], out: &mut W) -> Result<Comments, ProgramError>
    ensures { Tidies W.sink out.old out.new typed.now result }
{
    let exact = match exact_text(alloc, typed) {
        Ok(exact) => exact,
        Err(AllocError) => return Err(ProgramError::Memory),
    };
    match Text::read(alloc, &exact.bytes) {
        Ok(_) => {}
        Err(ProgramError::Text(fault)) => {
            return Err(ProgramError::Text(typed_fault(&exact.lines, fault)));
        }
        Err(ProgramError::Memory) => return Err(ProgramError::Memory),
        Err(_) => unreachable!(),
    }
    match write_text(&exact.bytes, out) {
        Ok(()) => Ok(Comments {
            lines: exact.comments,
        }),
        Err(_) => Err(ProgramError::Write),
    }
}

/// Writes the exact text of a file's typed schedule or chart. It has no comments, and no blanks except between words,
/// and `a -> b m` and `b <- a` are written out. The number of dropped comments is reported on `err`. The line of a
/// refusal is written to `err` too: the first fault of the exact text, at its typed line, or F6.
///
/// Returns the exit status: 0 if the text was written, or 2 after a refusal. Nothing is written to `out` before a
/// refusal, unless writing to it failed (F24). A failed write to `err` changes nothing.
pub fn tidy<W: Out, V: Out>(alloc: Global, typed: &[u8], out: &mut W, err: &mut V) -> u8
    ensures { Answers (Tidies W.sink out.old out.new typed.now) tidy_exit V.sink err.old err.new result }
{
    answered(&write_exact(alloc, typed, out), err)
}
