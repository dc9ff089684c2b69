//! Words in one line.
ghost use Rattle.std.specs.Prelude.{◌≡◌, ◌++◌, IfOk, OnOk};
ghost use Rattle.diagram_import.specs.Margin.Plain.{plain_byte, waits, plain_step, ended, plain_text};

use std::alloc::{AllocError, Global};

/// The byte, or a blank for a tab or a byte that ends a line.
fn plain_byte(byte: u8) -> u8
    ensures { result ≡ plain_byte byte }
{
    if byte == b'\n' || byte == b'\r' || byte == b'\t' {
        b' '
    } else {
        byte
    }
}

/// Whether a byte waits for the one after it.
fn waits(escaped: bool, byte: u8) -> bool
    ensures { result ≡ waits escaped byte }
{
    !escaped && byte == b'\\'
}

/// Adds the text of a byte, after a backslash or not.
fn add_byte(escaped: bool, byte: u8, element: &mut Vec<u8>) -> Result<(), AllocError>
    ensures { OnOk result (element.new.items ≡ element.old.items ++ plain_step escaped byte) }
{
    if waits(escaped, byte) {
        return Ok(());
    }
    if escaped && byte == b'n' {
        element.push(b' ')?;
        return Ok(());
    }
    if escaped && byte != b'"' {
        element.push(b'\\')?;
    }
    element.push(plain_byte(byte))?;
    Ok(())
}

/// Adds the backslash that still waits at the end, if there is one.
fn add_end(escaped: bool, element: &mut Vec<u8>) -> Result<(), AllocError>
    ensures { OnOk result (element.new.items ≡ element.old.items ++ ended escaped) }
{
    if escaped {
        element.push(b'\\')?;
    }
    Ok(())
}

/// Words in one line, as they are read. The end of a line is a blank, also if it is written as `\n`.
pub(crate) fn plain_text(alloc: Global, raw: &[u8]) -> Result<Vec<u8>, AllocError>
    ensures { IfOk result (λ element. element.items ≡ plain_text raw.now) }
{
    let mut element = Vec::with_capacity(alloc, raw.len())?;
    let mut escaped = false;
    for byte in raw {
        add_byte(escaped, *byte, &mut element)?;
        escaped = waits(escaped, *byte);
    }
    add_end(escaped, &mut element)?;
    Ok(element)
}
