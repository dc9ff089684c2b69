//! The whole text of an export.
ghost use Rattle.std.specs.Prelude.{◌≡◌, option_map};
ghost use Rattle.std.specs.List.{flat_map};
ghost use Rattle.texts.specs.Writing.{Wrote, Adds};
ghost use Rattle.diagram_export.specs.ExportText.{start, end, comma_before, in_mscgen, in_plantuml, in_mermaid, declared_in};
ghost use Rattle.diagram_export.specs.ExportText.{participant, participants_end, note_text, row_text, rows_text};
ghost use Rattle.diagram_export.specs.ExportText.{noted, export_text};

use crate::export::Export;
use crate::part::{Part, add_one, add_parts, who_part};
use crate::saying::saying_of;
use crate::spelling::{add_races, add_saying, add_space};
use crate::word::Word;
use chart::{EventNo, InstanceNo, Line, Report};
use chart_layout::Row;
use diagram_tool::Tool;
use texts::{Out, TextBuffer, WriteError};

/// The text's beginning.
#[tactic(auto, unfolding(crate::specs::ExportText::start))]
fn start(tool: Tool) -> &'static [u8]
    ensures { result.now ≡ start tool }
{
    match tool {
        Tool::Mscgen => b"msc {\n",
        Tool::PlantUml => b"@startuml\n",
        Tool::Mermaid => b"sequenceDiagram\n",
    }
}

/// The text's end.
#[tactic(auto, unfolding(crate::specs::ExportText::end))]
fn end(tool: Tool) -> &'static [u8]
    ensures { result.now ≡ end tool }
{
    match tool {
        Tool::Mscgen => b"}\n",
        Tool::PlantUml => b"@enduml\n",
        Tool::Mermaid => b"",
    }
}

/// The text after the participants.
#[tactic(auto, unfolding(crate::specs::ExportText::participants_end))]
fn participants_end(tool: Tool) -> &'static [u8]
    ensures { result.now ≡ participants_end tool }
{
    match tool {
        Tool::Mscgen => b";\n",
        Tool::PlantUml | Tool::Mermaid => b"",
    }
}

#[tactic(auto, unfolding(crate::specs::ExportText::comma_before))]
fn comma_before(instance: InstanceNo) -> &'static [u8]
    ensures { result.now ≡ comma_before instance }
{
    if instance.number() == 1 {
        b"  "
    } else {
        b",\n  "
    }
}

#[tactic(auto, using(texts::proofs::Writes::joining), unfolding(crate::specs::ExportText::in_mscgen))]
fn add_in_mscgen<W: Out>(
    text: &mut TextBuffer<'_, W>,
    export: &Export<'_>,
    instance: InstanceNo,
) -> Result<(), WriteError>
    ensures { Adds W.sink text.old text.new result (in_mscgen export.now instance) }
{
    text.add(comma_before(instance))?;
    add_one(text, who_part(export, instance))
}

#[tactic(auto, unfolding(crate::specs::ExportText::in_plantuml))]
fn add_in_plantuml<W: Out>(
    text: &mut TextBuffer<'_, W>,
    export: &Export<'_>,
    instance: InstanceNo,
) -> Result<(), WriteError>
    ensures { Adds W.sink text.old text.new result (in_plantuml export.now instance) }
{
    add_parts(
        text,
        &[
            Part::Word(Word::Participant),
            who_part(export, instance),
            Part::Word(Word::LineEnd),
        ],
    )
}

#[tactic(auto, unfolding(crate::specs::ExportText::in_mermaid))]
fn add_in_mermaid<W: Out>(
    text: &mut TextBuffer<'_, W>,
    export: &Export<'_>,
    instance: InstanceNo,
) -> Result<(), WriteError>
    ensures { Adds W.sink text.old text.new result (in_mermaid export.now instance) }
{
    add_parts(
        text,
        &[
            Part::Indent(export.tool()),
            Part::Word(Word::Participant),
            who_part(export, instance),
            Part::Word(Word::As),
            Part::Name(export.names().name(instance)),
            Part::Word(Word::LineEnd),
        ],
    )
}

/// Adds a participant.
fn add_participant<W: Out>(
    text: &mut TextBuffer<'_, W>,
    export: &Export<'_>,
    line: &Line,
) -> Result<(), WriteError>
    ensures { Adds W.sink text.old text.new result (participant export.now line.now) }
{
    let instance = line.instance();
    match export.tool() {
        Tool::Mscgen => add_in_mscgen(text, export, instance),
        Tool::PlantUml => add_in_plantuml(text, export, instance),
        Tool::Mermaid => add_in_mermaid(text, export, instance),
    }
}

fn add_participants<W: Out>(
    text: &mut TextBuffer<'_, W>,
    export: &Export<'_>,
    lines: &[Line],
) -> Result<(), WriteError>
    ensures { Adds W.sink text.old text.new result (flat_map (participant export.now) lines.now) }
{
    for line in lines {
        add_participant(text, export, line)?;
    }
    Ok(())
}

/// Adds the note of a row, if it has one.
fn add_note<W: Out>(
    text: &mut TextBuffer<'_, W>,
    export: &Export<'_>,
    report: Option<&Report>,
) -> Result<(), WriteError>
    ensures { Adds W.sink text.old text.new result
        (note_text export.now (option_map (λ r. r.now) report.entry)) }
{
    match report {
        Some(report) => add_races(text, export, report),
        None => text.add(b""),
    }
}

/// The event of a row that may have races.
fn noted(row: &Row) -> EventNo
    ensures { result ≡ noted row.now }
{
    match row {
        Row::Message { receive, .. } => *receive,
        Row::Event(event) => *event,
    }
}

#[tactic(auto, using(texts::proofs::Writes::joining), unfolding(crate::specs::ExportText::row_text))]
fn add_row<W: Out>(
    text: &mut TextBuffer<'_, W>,
    export: &Export<'_>,
    row: &Row,
) -> Result<(), WriteError>
    ensures { Adds W.sink text.old text.new result (row_text export.now row.now) }
{
    add_saying(text, export, &saying_of(export, row))?;
    add_note(text, export, export.note_of(&noted(row)))
}

fn add_rows<W: Out>(
    text: &mut TextBuffer<'_, W>,
    export: &Export<'_>,
    rows: &[Row],
) -> Result<(), WriteError>
    ensures { Adds W.sink text.old text.new result (flat_map (row_text export.now) rows.now) }
{
    for row in rows {
        add_row(text, export, row)?;
    }
    Ok(())
}

/// Adds the rows, or the text in their place.
fn add_all_rows<W: Out>(text: &mut TextBuffer<'_, W>, export: &Export<'_>) -> Result<(), WriteError>
    ensures { Adds W.sink text.old text.new result (rows_text export.now) }
{
    if export.rows().is_empty() {
        match export.tool() {
            Tool::Mscgen => add_space(text),
            Tool::PlantUml | Tool::Mermaid => text.add(b""),
        }
    } else {
        add_rows(text, export, export.rows())
    }
}

/// Adds the whole text.
#[tactic(auto, using(texts::proofs::Writes::joining), unfolding(crate::specs::ExportText::export_text))]
fn add_export<W: Out>(text: &mut TextBuffer<'_, W>, export: &Export<'_>) -> Result<(), WriteError>
    ensures { Adds W.sink text.old text.new result (export_text export.now) }
{
    text.add(start(export.tool()))?;
    add_participants(text, export, export.lines())?;
    text.add(participants_end(export.tool()))?;
    add_all_rows(text, export)?;
    text.add(end(export.tool()))
}

/// Writes the export's text and nothing else. It takes no memory. If a put fails (F24), a beginning of the text was
/// written, and no other put is tried.
#[tactic(auto, using(texts::proofs::Writes::joining))]
pub fn write_export<W: Out>(export: &Export<'_>, out: &mut W) -> Result<(), WriteError>
    ensures { Wrote W.sink out.old out.new result (export_text export.now) }
{
    let mut text = TextBuffer::new(out);
    add_export(&mut text, export)?;
    text.finish()
}
