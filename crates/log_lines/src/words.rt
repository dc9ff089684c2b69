//! The words of a line.
ghost use Rattle.std.specs.Prelude.{◌≡◌, map, IfOk};
ghost use Rattle.log_lines.specs.Words.{words_of};

use std::alloc::{AllocError, Global};
use texts::bytes::is_blank;

/// The words of a line, which blanks separate.
pub fn words_of(alloc: Global, line: &[u8]) -> Result<Vec<&[u8]>, AllocError>
    ensures { IfOk result (λ v. map (λ w. w.now) v.items ≡ words_of line.now) }
{
    let mut words = Vec::new(alloc);
    for word in line.split(|byte| is_blank(*byte)) {
        if !word.is_empty() {
            words.push(word)?;
        }
    }
    Ok(words)
}
