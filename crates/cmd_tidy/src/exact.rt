//! The exact text of a typed text.
ghost use Rattle.std.specs.Prelude.{◌≡◌, ◌+◌, ◌<◌, ◌^◌, ◌++◌, ◌∷◌, [], IfOk, OnOk};
ghost use Rattle.cmd_tidy.specs.Typing.{exact_line, exact_text, typed_lines, has_word, has_comment, counted, staying_from, commented_from};

use crate::line::{add_line, has_comment, has_word, typed_words, write_out};
use std::alloc::{AllocError, Global};
use texts::next_line;

/// A text that is exact, except for faults of other kinds.
#[derive(Debug, Drop)]
pub struct ExactText {
    pub bytes: Vec<u8>,
    /// For each of its lines, the number of the typed line, from 1.
    pub lines: Vec<u64>,
    /// The numbers of the typed lines whose comments are dropped.
    pub comments: Vec<u64>,
}

/// Adds the number, if it counts.
fn count(numbers: &mut Vec<u64>, counts: bool, number: u64) -> Result<(), AllocError>
    ensures { OnOk result (numbers.new.items ≡ numbers.old.items ++ counted counts number) }
{
    if counts {
        numbers.push(number)?;
    }
    Ok(())
}

/// Adds the exact line of a typed line with this number.
#[tactic(auto, unfolding(crate::specs::Typing::exact_line))]
fn add_typed(
    alloc: Global,
    text: &mut ExactText,
    number: u64,
    line: &[u8],
) -> Result<(), AllocError>
    ensures bytes { OnOk result (text.new.bytes.items ≡ text.old.bytes.items ++ exact_line line.now) }
    ensures lines { OnOk result (text.new.lines.items ≡ text.old.lines.items ++ counted (has_word line.now) number) }
    ensures comments { OnOk result (text.new.comments.items ≡ text.old.comments.items ++ counted (has_comment line.now) number) }
{
    let mut words = typed_words(alloc, line)?;
    let has_word = has_word(&words, line);
    count(&mut text.lines, has_word, number)?;
    count(&mut text.comments, has_comment(line), number)?;
    write_out(&mut words);
    add_line(&mut text.bytes, &words)
}

/// The exact text of a typed text. The time is in proportion to the text.
#[tactic(auto, unfolding(crate::specs::Typing::exact_text))]
pub fn exact_text(alloc: Global, typed: &[u8]) -> Result<ExactText, AllocError>
    ensures bytes { IfOk result (λ t. t.bytes.items ≡ exact_text typed.now) }
    ensures lines { IfOk result (λ t. t.lines.items ≡ staying_from 1 (typed_lines typed.now)) }
    ensures comments { IfOk result (λ t. t.comments.items ≡ commented_from 1 (typed_lines typed.now)) }
{
    let mut text = ExactText {
        bytes: Vec::new(alloc),
        lines: Vec::new(alloc),
        comments: Vec::new(alloc),
    };
    let mut rest = typed;
    let mut number = 1;
    'lines: loop {
        match next_line(rest) {
            None => break,
            Some((line, after)) => {
                add_typed(alloc, &mut text, number, line)?;
                rest = after;
                number += 1;
            }
        }
    }
    add_typed(alloc, &mut text, number, rest)?;
    Ok(text)
}
