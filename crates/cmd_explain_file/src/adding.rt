//! Parts of the output: blanks, and bytes of a file.
ghost use Rattle.std.specs.Prelude.{◌≡◌, decimal};
ghost use Rattle.std.specs.List.{flat_map};
ghost use Rattle.cmd_explain_file.specs.Sayings.{blank, shown_byte};
ghost use Rattle.texts.specs.Writing.{Adds};

use itoa::Buffer;
use texts::bytes::printable;
use texts::{Out, TextBuffer, WriteError};

/// Adds one blank for each of the bytes.
pub(crate) fn add_blanks<W: Out>(
    text: &mut TextBuffer<'_, W>,
    bytes: &[u8],
) -> Result<(), WriteError>
    ensures { Adds W.sink text.old text.new result (flat_map blank bytes.now) }
{
    for byte in bytes {
        let _ = byte;
        text.add(b" ")?;
    }
    Ok(())
}

/// Adds one blank for each digit of a number.
pub(crate) fn add_margin<W: Out>(
    text: &mut TextBuffer<'_, W>,
    number: u64,
) -> Result<(), WriteError>
    ensures { Adds W.sink text.old text.new result (flat_map blank (decimal number)) }
{
    let mut buffer = Buffer::new();
    add_blanks(text, buffer.format(number).as_bytes())
}

/// Adds a byte of a file, as a terminal shows it in one column.
fn add_shown_byte<W: Out>(text: &mut TextBuffer<'_, W>, byte: u8) -> Result<(), WriteError>
    ensures { Adds W.sink text.old text.new result (shown_byte byte) }
{
    if byte == b'\t' {
        text.add(b" ")
    } else {
        text.add(&[printable(byte)])
    }
}

/// Adds bytes of a file.
pub(crate) fn add_shown<W: Out>(
    text: &mut TextBuffer<'_, W>,
    bytes: &[u8],
) -> Result<(), WriteError>
    ensures { Adds W.sink text.old text.new result (flat_map shown_byte bytes.now) }
{
    for byte in bytes {
        add_shown_byte(text, *byte)?;
    }
    Ok(())
}
