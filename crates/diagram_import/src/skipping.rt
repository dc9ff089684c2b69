//! Skipped lines of a text.
ghost use Rattle.std.specs.Prelude.{◌≡◌, false, IfOk};
ghost use Rattle.diagram_import.specs.Skipping.{is_skipped, read_byte, line_behind, blanked_from, lines_from, is_beyond};

use std::alloc::{AllocError, Global};

/// Lines to skip: from the first to the last of them, counted from 1.
#[derive(Clone, Copy, Debug, PartialEq, Eq)]
pub struct Skip {
    pub first: u64,
    pub last: u64,
}

/// Whether the line with this number is skipped.
fn is_skipped(skips: &[Skip], line: u64) -> bool
    ensures { result ≡ is_skipped skips.now line }
{
    skips
        .iter()
        .any(|skip| skip.first <= line && line <= skip.last)
}

/// Whether a line to skip is beyond this number of lines.
pub(crate) fn is_beyond(skips: &[Skip], count: u64) -> bool
    ensures { result ≡ is_beyond skips.now count }
{
    skips.iter().any(|skip| count < skip.last)
}

/// The number of the line after a byte: a line feed ends a line. F6 if the number doesn't fit.
fn line_behind(line: u64, byte: u8) -> Result<u64, AllocError>
    ensures { IfOk result (λ next. next ≡ line_behind line byte) }
{
    if byte != b'\n' {
        return Ok(line);
    }
    match line.checked_add(1) {
        Some(next) => Ok(next),
        None => Err(AllocError),
    }
}

/// The byte as it is read in this line.
fn read_byte(skips: &[Skip], line: u64, byte: u8) -> u8
    ensures { result ≡ read_byte skips.now line byte }
{
    if byte != b'\n' && is_skipped(skips, line) {
        b' '
    } else {
        byte
    }
}

/// The number of lines of a text. The last one needs no line feed. F6 if the number doesn't fit.
pub(crate) fn count_of_lines(text: &[u8]) -> Result<u64, AllocError>
    ensures { IfOk result (λ count. count ≡ lines_from 0 false text.now) }
{
    let mut count: u64 = 0;
    let mut begun = false;
    for byte in text {
        count = line_behind(count, *byte)?;
        begun = *byte != b'\n';
    }
    if !begun {
        return Ok(count);
    }
    let all = line_behind(count, b'\n')?;
    Ok(all)
}

/// The text with blanks for the skipped lines. F6 if the number of a line doesn't fit.
pub fn blanked(alloc: Global, skips: &[Skip], text: &[u8]) -> Result<Vec<u8>, AllocError>
    ensures { IfOk result (λ bytes. bytes.items ≡ blanked_from skips.now 1 text.now) }
{
    let mut bytes = Vec::new(alloc);
    let mut line: u64 = 1;
    for byte in text {
        bytes.push(read_byte(skips, line, *byte))?;
        line = line_behind(line, *byte)?;
    }
    Ok(bytes)
}
