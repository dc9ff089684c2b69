//! Texts between quotation marks, without their escapes.
ghost use Rattle.std.specs.Prelude.{◌≡◌, ◌++◌, IfOk, OnOk};
ghost use Rattle.texts.specs.Bytes.Classes.{is_white_space};
ghost use Rattle.diagram_mscgen.specs.Reading.Texts.{plain_step, escaped_step, step, ended, text_of};

use std::alloc::{AllocError, Global};
use texts::bytes::is_white_space;

/// What comes before a byte.
#[derive(Clone, Copy, Debug)]
pub(crate) enum Mode {
    Plain,
    /// A backslash that waits for the byte after it.
    Escaped,
    /// A line's end and blanks.
    LineEnd,
}

/// Adds the text of a byte.
fn add_plain(byte: u8, read: &mut Vec<u8>) -> Result<Mode, AllocError>
    ensures mode { IfOk result (λ mode. mode ≡ (plain_step byte).1) }
    ensures read { OnOk result (read.new.items ≡ read.old.items ++ (plain_step byte).0) }
{
    if byte == b'\\' {
        return Ok(Mode::Escaped);
    }
    if byte == b'\n' || byte == b'\r' {
        read.push(b' ')?;
        return Ok(Mode::LineEnd);
    }
    read.push(byte)?;
    Ok(Mode::Plain)
}

/// Adds the text of a byte after a backslash.
fn add_escaped(byte: u8, read: &mut Vec<u8>) -> Result<Mode, AllocError>
    ensures mode { IfOk result (λ mode. mode ≡ (escaped_step byte).1) }
    ensures read { OnOk result (read.new.items ≡ read.old.items ++ (escaped_step byte).0) }
{
    if byte == b'n' {
        read.push(b'\n')?;
        return Ok(Mode::Plain);
    }
    if byte == b'"' {
        read.push(b'"')?;
        return Ok(Mode::Plain);
    }
    read.push(b'\\')?;
    add_plain(byte, read)
}

/// Adds the text of a byte, by what comes before it.
fn add_byte(mode: Mode, byte: u8, read: &mut Vec<u8>) -> Result<Mode, AllocError>
    ensures mode { IfOk result (λ next. next ≡ (step mode byte).1) }
    ensures read { OnOk result (read.new.items ≡ read.old.items ++ (step mode byte).0) }
{
    match mode {
        Mode::Plain => add_plain(byte, read),
        Mode::Escaped => add_escaped(byte, read),
        Mode::LineEnd => {
            if is_white_space(byte) {
                Ok(Mode::LineEnd)
            } else {
                add_plain(byte, read)
            }
        }
    }
}

/// Adds the backslash that still waits at the end, if there is one.
fn add_end(mode: Mode, read: &mut Vec<u8>) -> Result<(), AllocError>
    ensures { OnOk result (read.new.items ≡ read.old.items ++ ended mode) }
{
    match mode {
        Mode::Escaped => {
            read.push(b'\\')?;
            Ok(())
        }
        Mode::Plain | Mode::LineEnd => Ok(()),
    }
}

/// The text of these bytes between quotation marks.
pub(crate) fn text_of(alloc: Global, raw: &[u8]) -> Result<Vec<u8>, AllocError>
    ensures { IfOk result (λ read. read.items ≡ text_of raw.now) }
{
    let mut read = Vec::with_capacity(alloc, raw.len())?;
    let mut mode = Mode::Plain;
    for byte in raw {
        mode = add_byte(mode, *byte, &mut read)?;
    }
    add_end(mode, &mut read)?;
    Ok(read)
}
