//! Labels, with a line feed for each sign of a new line.
ghost use Rattle.std.specs.Prelude.{◌≡◌, IfOk};
ghost use Rattle.diagram_statements.specs.ToDiagram.Labels.{tag_length, break_length, label_of};

use std::alloc::{AllocError, Global};
use texts::{begins, begins_with, behind_blanks, behind_word, skip_word};

/// The signs for a new line in a label.
#[derive(Clone, Copy, Debug)]
pub enum Breaks {
    /// PlantUML's `\n`.
    PlantUml,
    /// Mermaid's `\n` and `<br/>`, which are case-insensitive.
    Mermaid,
}

/// The length of a tag for a new line that comes next, or 0.
#[tactic(auto, unfolding(crate::specs::ToDiagram::Labels::tag_length))]
fn tag_length(bytes: &[u8]) -> usize
    ensures { result ≡ tag_length bytes.now }
{
    let Some(rest) = behind_word(b"<br", bytes) else {
        return 0;
    };
    let end = skip_word(b"/", behind_blanks(rest));
    if begins_with(end, b">") {
        bytes.len() - end.len() + 1
    } else {
        0
    }
}

/// The length of a sign for a new line that comes next, or 0.
#[tactic(auto, unfolding(crate::specs::ToDiagram::Labels::break_length))]
fn break_length(breaks: Breaks, bytes: &[u8]) -> usize
    ensures { result ≡ break_length breaks bytes.now }
{
    match breaks {
        Breaks::PlantUml => { if begins_with(bytes, b"\\n") { 2 } else { 0 } }
        Breaks::Mermaid => {
            if begins(b"\\n", bytes) {
                2
            } else {
                tag_length(bytes)
            }
        }
    }
}

/// A text, with a line feed for each sign of a new line.
#[tactic(auto, unfolding(crate::specs::ToDiagram::Labels::label_of))]
pub(crate) fn label_of(alloc: Global, breaks: Breaks, text: &[u8]) -> Result<Vec<u8>, AllocError>
    ensures { IfOk result (λ label. label.items ≡ label_of breaks text.now) }
{
    let mut label = Vec::new(alloc);
    let mut within = 0;
    let mut rest = text;
    'bytes: while let [byte, others @ ..] = rest {
        let length = break_length(breaks, rest);
        if within > 0 {
            within -= 1;
        } else if length > 0 {
            label.push(b'\n')?;
            within = length - 1;
        } else {
            label.push(*byte)?;
        }
        rest = others;
    }
    Ok(label)
}
