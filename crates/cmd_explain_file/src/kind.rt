//! The kind of a file.
ghost use Rattle.std.specs.Prelude.{◌≡◌, ◌==◌, length};
ghost use Rattle.std.specs.List.{list_any};
ghost use Rattle.diagram_import.specs.Importing.{behind_mark};
ghost use Rattle.cmd_explain_file.specs.Kinds.{has_brace, begins_chart, shown, kind_by};

use cmd_base::is_schedule;
use diagram_tool::Tool;
use diagram_tool::detection::detected_tool;
use fault_places::line_from;

/// The kind of a file.
#[derive(Clone, Copy, Debug, PartialEq, Eq)]
pub(crate) enum Kind {
    Schedule,
    Chart,
    /// A diagram that was drawn for this tool.
    Diagram(Tool),
    /// Any other file.
    Other,
}

/// Whether the text has a brace.
fn has_brace(text: &[u8]) -> bool
    ensures { result ≡ has_brace text.now }
{
    text.iter().any(|byte| *byte == b'{')
}

/// Whether a text with the first word `msc` is a chart's. If it isn't, it is a text of mscgen, which has a brace after
/// this word.
#[tactic(auto, unfolding(crate::specs::Kinds::begins_chart))]
fn begins_chart(text: &[u8]) -> bool
    ensures { result ≡ begins_chart text.now }
{
    !has_brace(text) || line_from(text) == b"msc run;".as_slice()
}

/// The text after its byte order mark, if it begins with one.
#[tactic(auto, unfolding(diagram_import::specs::Importing::behind_mark))]
fn behind_mark(text: &[u8]) -> &[u8]
    ensures { result.now ≡ behind_mark text.now }
{
    if text.starts_with(&[0xef, 0xbb, 0xbf]) {
        &text[3..]
    } else {
        text
    }
}

/// The part of a file that is shown. For a diagram this is the text after its byte order mark.
pub(crate) fn shown(kind: Kind, text: &[u8]) -> &[u8]
    ensures { result.now ≡ shown kind text.now }
{
    match kind {
        Kind::Diagram(_) => behind_mark(text),
        _ => text,
    }
}

/// The kind of a file, by its text and its exact text. It is a schedule if the first word of either text is a
/// schedule's. Otherwise the first word outside comments determines the kind.
#[tactic(auto, unfolding(crate::specs::Kinds::kind_by))]
pub(crate) fn kind_by(text: &[u8], exact: &[u8]) -> Kind
    ensures { result ≡ kind_by text.now exact.now }
{
    if is_schedule(text) || is_schedule(exact) {
        return Kind::Schedule;
    }
    match detected_tool(behind_mark(text)) {
        Ok(Tool::Mscgen) if begins_chart(text) => Kind::Chart,
        Ok(tool) => Kind::Diagram(tool),
        Err(_) => Kind::Other,
    }
}
