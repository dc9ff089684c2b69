//! Names that differ from their labels, as text.
ghost use Rattle.std.specs.List.{flat_map};
ghost use Rattle.texts.specs.Writing.{Adds};
ghost use Rattle.diagram_labels.specs.Renamed.Reporting.{shown_byte, start, is, end, renamed_line};

use crate::Renamed;
use texts::bytes::printable;
use texts::{Out, TextBuffer, WriteError};

/// Adds a byte of a label.
fn add_shown_byte<V: Out>(text: &mut TextBuffer<'_, V>, byte: u8) -> Result<(), WriteError>
    ensures { Adds V.sink text.old text.new result (shown_byte byte) }
{
    if byte == b'\n' {
        text.add(b"\\n")
    } else {
        text.add(&[printable(byte)])
    }
}

/// Adds a label.
fn add_shown<V: Out>(text: &mut TextBuffer<'_, V>, label: &[u8]) -> Result<(), WriteError>
    ensures { Adds V.sink text.old text.new result (flat_map shown_byte label.now) }
{
    for byte in label {
        add_shown_byte(text, *byte)?;
    }
    Ok(())
}

#[tactic(auto, unfolding(crate::specs::Renamed::Reporting::start))]
fn add_start<V: Out>(text: &mut TextBuffer<'_, V>) -> Result<(), WriteError>
    ensures { Adds V.sink text.old text.new result start }
{
    text.add(b"name ")
}

#[tactic(auto, unfolding(crate::specs::Renamed::Reporting::is))]
fn add_is<V: Out>(text: &mut TextBuffer<'_, V>) -> Result<(), WriteError>
    ensures { Adds V.sink text.old text.new result is }
{
    text.add(b" is \"")
}

#[tactic(auto, unfolding(crate::specs::Renamed::Reporting::end))]
fn add_end<V: Out>(text: &mut TextBuffer<'_, V>) -> Result<(), WriteError>
    ensures { Adds V.sink text.old text.new result end }
{
    text.add(b"\"\n")
}

/// Adds a name, with the label from which it differs.
#[tactic(auto, using(texts::proofs::Writes::joining), unfolding(crate::specs::Renamed::Reporting::renamed_line))]
fn add_renamed<V: Out>(text: &mut TextBuffer<'_, V>, renamed: &Renamed) -> Result<(), WriteError>
    ensures { Adds V.sink text.old text.new result (renamed_line renamed.now) }
{
    add_start(text)?;
    text.add(renamed.name.as_bytes())?;
    add_is(text)?;
    add_shown(text, renamed.label.as_slice())?;
    add_end(text)
}

/// Adds a line for each name that differs from its label.
pub fn add_all_renamed<V: Out>(
    text: &mut TextBuffer<'_, V>,
    renamed: &[Renamed],
) -> Result<(), WriteError>
    ensures { Adds V.sink text.old text.new result (flat_map renamed_line renamed.now) }
{
    for name in renamed {
        add_renamed(text, name)?;
    }
    Ok(())
}
