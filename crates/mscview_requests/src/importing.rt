//! Texts of other tools: their charts, and the pictures, races and pages of these charts.
ghost use Rattle.std.specs.Prelude.{◌≡◌, map, option_map, MatchResult};
ghost use Rattle.cmd_base.specs.declared.error.ProgramError.TheVariants.{Memory};
ghost use Rattle.diagram_join.specs.Joins.{join_view};
ghost use Rattle.diagram_import.specs.Importing.{options_view};
ghost use Rattle.mscview_requests.specs.Readings.{read_view, skips_of};
ghost use Rattle.mscview_requests.specs.Words.Words.{AreRead, Says, Reads};
ghost use Rattle.mscview_requests.specs.Effects.{ViewsImport, ViewsPictureOf, ViewsRacesOf, ViewsToolPage, ViewsToolQuestion};
ghost use Rattle.mscview_requests.specs.Wanted.{IsTool, IsSkip, IsReading};

use crate::drawing::{file_title, picture_by};
use crate::giving::{Giver, first_in};
use crate::questions::{answer_of_diagram, question_by};
use crate::racing::wanted_by;
use crate::words::{JoinWord, join_words, joins_of};
use cli::view::{Draw, Import, Races, Reading, ToolQuestion};
use cmd_base::ProgramError;
use cmd_draw::imports::draw_of;
use cmd_draw::{events_in, tool_in};
use cmd_import_diagram::import;
use cmd_page::imports::page_of_diagram;
use cmd_races::imports::races_of;
use diagram_import::{Options, Skip};
use diagram_join::Join;
use diagram_tool::Tool;
use std::alloc::{AllocError, AllocFailed, Global};
use texts::Out;

/// How a text is read, by the words of a command line.
#[derive(Drop)]
pub(crate) struct Read {
    pub tool: Option<Tool>,
    pub skipped: Vec<Skip>,
    pub joined: Vec<JoinWord>,
    pub is_strict: bool,
}

/// The tool whose text is read, if a word names it. G1: the word names no tool.
fn tool_by(word: Option<&str>) -> Result<Option<Tool>, ProgramError>
    ensures { Says (IsTool (option_map (λ w. w.now) word.entry)) result }
{
    match word {
        None => Ok(None),
        Some(word) => match tool_in(word) {
            None => Err(ProgramError::Usage),
            Some(tool) => Ok(Some(tool)),
        },
    }
}

/// The lines to skip, by a word. G1: the word isn't a range of lines.
fn skip_by(word: &str) -> Result<Skip, ProgramError>
    ensures { Says (IsSkip word.now) result }
{
    let Some(lines) = events_in(word) else {
        return Err(ProgramError::Usage);
    };
    Ok(Skip {
        first: u64::from(lines.first),
        last: u64::from(lines.last),
    })
}

/// The lines to skip, by all words. G1: a word isn't a range of lines.
fn skips_by(alloc: Global, words: &[&str]) -> Result<Vec<Skip>, ProgramError>
    ensures { Reads result skips_of (AreRead IsSkip (map (λ w. w.now) words.now)) }
{
    let mut skips = Vec::new(alloc);
    for word in words {
        let skip = skip_by(*word)?;
        match skips.push(skip) {
            Ok(()) => {}
            Err(AllocFailed { .. }) => return Err(ProgramError::Memory),
        }
    }
    Ok(skips)
}

/// How a text is read. G1: a word isn't valid.
fn read_by(alloc: Global, reading: &Reading<'_>) -> Result<Read, ProgramError>
    ensures { Reads result read_view (IsReading reading.now) }
{
    Ok(Read {
        tool: tool_by(reading.from)?,
        skipped: skips_by(alloc, &reading.skipped)?,
        joined: join_words(alloc, &reading.joined)?,
        is_strict: reading.strict,
    })
}

/// The joins in the words.
fn joins_by<'a>(alloc: Global, read: &'a Read) -> Result<Vec<Join<'a>>, ProgramError>
    ensures { MatchResult result (λ joins. map join_view joins.items ≡ (read_view read.now).1.joins) (λ e. e ≡ Memory) }
{
    match joins_of(alloc, &read.joined) {
        Ok(joins) => Ok(joins),
        Err(AllocError) => Err(ProgramError::Memory),
    }
}

/// The options for reading a text.
fn options_of<'a>(read: &'a Read, joins: &'a [Join<'a>]) -> Options<'a>
    requires { map join_view joins.now ≡ (read_view read.now).1.joins }
    ensures { options_view result ≡ (read_view read.now).1 }
{
    Options {
        skipped: read.skipped.as_slice(),
        joins,
        is_strict: read.is_strict,
    }
}

/// Writes the chart of another tool's text.
pub(crate) fn view_import<G: Giver, W: Out, V: Out>(
    alloc: Global,
    imported: &Import<'_>,
    giver: &G,
    out: &mut W,
    err: &mut V,
) -> Result<u8, ProgramError>
    ensures { ViewsImport (G.gives giver.now) W.sink out.old out.new V.sink err.old err.new imported.now result }
{
    let read = read_by(alloc, &imported.reading)?;
    let joins = joins_by(alloc, &read)?;
    let bytes = first_in(alloc, giver, imported.file)?;
    let options = options_of(&read, &joins);
    Ok(import(alloc, read.tool, bytes.as_slice(), options, out, err))
}

/// Draws another tool's text.
pub(crate) fn view_picture_of<G: Giver, W: Out, V: Out>(
    alloc: Global,
    picture: &Draw<'_>,
    reading: &Reading<'_>,
    giver: &G,
    out: &mut W,
    err: &mut V,
) -> Result<u8, ProgramError>
    ensures { ViewsPictureOf (G.gives giver.now) W.sink out.old out.new V.sink err.old err.new picture.now reading.now
        result }
{
    let wanted = picture_by(picture)?;
    let read = read_by(alloc, reading)?;
    let joins = joins_by(alloc, &read)?;
    let bytes = first_in(alloc, giver, picture.file)?;
    let options = options_of(&read, &joins);
    Ok(draw_of(
        alloc,
        read.tool,
        bytes.as_slice(),
        options,
        &wanted,
        out,
        err,
    ))
}

/// Writes the page of another tool's text, with the title that a picture of the file has.
pub(crate) fn view_tool_page<G: Giver, W: Out, V: Out>(
    alloc: Global,
    wanted: &Import<'_>,
    giver: &G,
    out: &mut W,
    err: &mut V,
) -> Result<u8, ProgramError>
    ensures { ViewsToolPage (G.gives giver.now) W.sink out.old out.new V.sink err.old err.new wanted.now result }
{
    let read = read_by(alloc, &wanted.reading)?;
    let joins = joins_by(alloc, &read)?;
    let bytes = first_in(alloc, giver, wanted.file)?;
    let options = options_of(&read, &joins);
    let title = file_title(wanted.file);
    Ok(page_of_diagram(alloc, read.tool, bytes.as_slice(), options, title, out, err))
}

/// Imports another tool's text, and answers a question about its chart.
pub(crate) fn view_tool_question<G: Giver, W: Out, V: Out>(
    alloc: Global,
    wanted: &ToolQuestion<'_>,
    giver: &G,
    out: &mut W,
    err: &mut V,
) -> Result<u8, ProgramError>
    ensures { ViewsToolQuestion (G.gives giver.now) W.sink out.old out.new V.sink err.old err.new wanted.now result }
{
    let question = question_by(&wanted.asked)?;
    let read = read_by(alloc, &wanted.import.reading)?;
    let joins = joins_by(alloc, &read)?;
    let bytes = first_in(alloc, giver, wanted.import.file)?;
    let options = options_of(&read, &joins);
    Ok(answer_of_diagram(
        alloc,
        &question,
        read.tool,
        bytes.as_slice(),
        options,
        out,
        err,
    ))
}

/// Shows the races of another tool's text by name. G1: the words ask for the luck of races, which such a text doesn't
/// show.
pub(crate) fn view_races_of<G: Giver, W: Out, V: Out>(
    alloc: Global,
    asked: &Races<'_>,
    reading: &Reading<'_>,
    giver: &G,
    out: &mut W,
    err: &mut V,
) -> Result<u8, ProgramError>
    ensures { ViewsRacesOf (G.gives giver.now) W.sink out.old out.new V.sink err.old err.new asked.now reading.now result }
{
    let read = read_by(alloc, reading)?;
    let joins = joins_by(alloc, &read)?;
    let bytes = first_in(alloc, giver, asked.file)?;
    if asked.showing.luck {
        return Err(ProgramError::Usage);
    }
    let options = options_of(&read, &joins);
    let wanted = wanted_by(&asked.showing);
    Ok(races_of(
        alloc,
        read.tool,
        bytes.as_slice(),
        options,
        &wanted,
        out,
        err,
    ))
}
