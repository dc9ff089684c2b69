//! The page of a file.
ghost use Rattle.std.specs.Prelude.{◌≡◌, length, option_map, All, IfOk, IfSome};
ghost use Rattle.chart.specs.Charts.{chart_lines, IsPossible};
ghost use Rattle.cmd_base.specs.Answers.{Answers};
ghost use Rattle.cmd_base.specs.Texts.{IsReadAs};
ghost use Rattle.cmd_page.specs.Marks.Pairing.{HasRange};
ghost use Rattle.cmd_page.specs.Showing.{
  HasPicture,
  IsAskedOf,
  IsPicture,
  IsPictureBy,
  Shows,
  ShowsFile,
  ShowsText,
  heading_view,
  page_exit,
  titled,
};

use crate::answers::Collected;
use crate::marks::{RaceRange, explained_of, races_in};
use crate::races::{ReadFile, races_of};
use crate::text::{Page, write_page};
use chart::{Chart, InstanceNo, Names};
use closure::Closure;
use cmd_base::{NotDone, ProgramError, Source, Text, answered, closure_of};
use cmd_draw::{Events, Rows, Wanted, draw, draw_chart};
use std::alloc::{AllocError, Global};
use texts::Out;

/// The title of a page, the order of events in its picture, and its races.
#[derive(Clone, Copy, Debug)]
pub struct Heading<'a> {
    /// The title above the page and above its picture: any bytes.
    pub title: &'a [u8],
    /// The instance of each event, from top to bottom. Without turns the rows are those of `draw` for the file.
    pub turns: Option<&'a [InstanceNo]>,
    /// The races with their verdicts. Without them the races are those of the chart's reports, and have no words.
    pub races: Option<&'a [RaceRange]>,
}

/// The whole picture with this title.
fn wanted_of(title: &[u8]) -> Wanted<'_>
    ensures { IsAskedOf title.now result }
{
    Wanted {
        title,
        only: None,
        events: Events::ALL,
        rows: Rows::Between(Events::ALL),
        numbers: false,
    }
}

/// The picture of a file with this title: the output of `draw`.
fn picture_of(alloc: Global, bytes: &[u8], title: &[u8]) -> Result<Vec<u8>, AllocError>
    ensures { IfOk result (λ picture. IsPicture bytes.now title.now picture.items) }
{
    let wanted = wanted_of(title);
    let mut out = Collected::new(alloc);
    let mut err = Collected::new(alloc);
    let status = draw(alloc, bytes, &wanted, &mut out, &mut err);
    if status == 0 {
        Ok(out.into_bytes())
    } else {
        Err(AllocError)
    }
}

/// The picture of a chart with this title, in the order of the turns, without notes. It fails only if there is no
/// memory, or if no run has the chart.
fn picture_by(
    alloc: Global,
    names: &Names,
    chart: &Chart,
    turns: &[InstanceNo],
    title: &[u8],
) -> Result<Vec<u8>, AllocError>
    requires { length names.now ≡ length chart.now }
    ensures { IfOk result (λ picture. IsPictureBy turns.now title.now (names.now, chart.now) picture.items) }
{
    let wanted = wanted_of(title);
    let mut out = Collected::new(alloc);
    match draw_chart(alloc, names, chart, turns, &[], &wanted, &mut out) {
        Ok(()) => Ok(out.into_bytes()),
        Err(_) => Err(AllocError),
    }
}

/// The picture of a page: that of the file, or of its chart in the order of turns.
fn picture_in(
    alloc: Global,
    bytes: &[u8],
    names: &Names,
    chart: &Chart,
    heading: &Heading<'_>,
) -> Result<Vec<u8>, AllocError>
    requires { length names.now ≡ length chart.now }
    ensures { IfOk result (λ picture. HasPicture (option_map (λ turns. turns.now) heading.now.turns) bytes.now
        heading.now.title.now (names.now, chart.now) picture.items) }
{
    match heading.turns {
        None => picture_of(alloc, bytes, heading.title),
        Some(turns) => picture_by(alloc, names, chart, turns, heading.title),
    }
}

/// Writes the page of a possible chart with this picture. It allocates all memory before it writes the first byte.
fn show_closure<W: Out>(
    alloc: Global,
    file: ReadFile<'_>,
    heading: &Heading<'_>,
    picture: &[u8],
    names: &Names,
    closure: &Closure<'_>,
    out: &mut W,
) -> Result<(), ProgramError>
    requires read_as { IsReadAs file.bytes.now file.source.now }
    requires possible { IsPossible (length closure.now) (chart_lines closure.now) }
    requires picture { HasPicture (option_map (λ turns. turns.now) heading.now.turns) file.bytes.now heading.now.title.now
        (names.now, closure.now) picture.now }
    requires ranges { IfSome heading.now.races (λ races. All HasRange races.now) }
    ensures { Shows W.sink out.old out.new result file.entry.bytes.now (heading_view heading.now)
        (names.now, closure.now) }
{
    let pairs = match races_in(alloc, closure, heading.races) {
        Ok(pairs) => pairs,
        Err(AllocError) => return Err(ProgramError::Memory),
    };
    let explained = explained_of(file.bytes.len(), pairs.len());
    let races = match races_of(alloc, file, names, closure, pairs.as_slice(), explained) {
        Ok(races) => races,
        Err(AllocError) => return Err(ProgramError::Memory),
    };
    let page = Page {
        title: heading.title,
        picture,
        races: races.as_slice(),
        explained,
    };
    match write_page(&page, out) {
        Ok(()) => Ok(()),
        Err(_) => Err(ProgramError::Write),
    }
}

/// Writes the page of a chart. F16, F17 or F18 refuses one that no run has.
fn show_chart<W: Out>(
    alloc: Global,
    file: ReadFile<'_>,
    heading: &Heading<'_>,
    names: &Names,
    chart: &Chart,
    out: &mut W,
) -> Result<(), ProgramError>
    requires read_as { IsReadAs file.bytes.now file.source.now }
    requires named { length names.now ≡ length chart.now }
    requires ranges { IfSome heading.now.races (λ races. All HasRange races.now) }
    ensures { Shows W.sink out.old out.new result file.entry.bytes.now (heading_view heading.now) (names.now, chart.now) }
{
    let closure = closure_of(alloc, names, chart)?;
    let picture = match picture_in(alloc, file.bytes, names, chart, heading) {
        Ok(picture) => picture,
        Err(AllocError) => return Err(ProgramError::Memory),
    };
    show_closure(
        alloc,
        file,
        heading,
        picture.as_slice(),
        names,
        &closure,
        out,
    )
}

/// Writes the page of a file's chart, with the picture, the turns and the races of the heading. The file is read once
/// for all explanations. The refusals are those of [`write_page_of`].
pub fn show_text<W: Out>(
    alloc: Global,
    bytes: &[u8],
    heading: &Heading<'_>,
    out: &mut W,
) -> Result<(), ProgramError>
    requires ranges { IfSome heading.now.races (λ races. All HasRange races.now) }
    ensures { ShowsText W.sink out.old out.new (heading_view heading.now) bytes.now result }
{
    let text = Text::read(alloc, bytes)?;
    let source = Source::of(alloc, &text)?;
    let file = ReadFile {
        bytes,
        source: &source,
    };
    show_chart(alloc, file, heading, source.names(), source.chart(), out)
}

/// Writes the page of a file, and returns the commands of its schedule that did nothing. The refusals are those of
/// [`write_page_of`].
fn show_file<W: Out>(
    alloc: Global,
    bytes: &[u8],
    heading: &Heading<'_>,
    out: &mut W,
) -> Result<Option<NotDone>, ProgramError>
    requires ranges { IfSome heading.now.races (λ races. All HasRange races.now) }
    ensures { ShowsFile W.sink out.old out.new (heading_view heading.now) bytes.now result }
{
    let text = Text::read(alloc, bytes)?;
    let source = Source::of(alloc, &text)?;
    let file = ReadFile {
        bytes,
        source: &source,
    };
    show_chart(alloc, file, heading, source.names(), source.chart(), out)?;
    Ok(source.not_done())
}

/// Writes the page of a file's chart to `out`. The bytes are a chart or a schedule, and a schedule is replayed. The
/// page has the picture, the races, and the output of `why`, `witness` and `mend` for the races that are described in
/// full. The line of a refusal goes to `err`, and so does the number of a schedule's commands that did nothing. The
/// exit status is 0 if the page was written, and 2 after a refusal. The faults of the text come first, then F16, F17
/// or F18. Nothing is written to `out` before a refusal, unless writing to it failed (F24). A failed write to `err`
/// changes nothing.
pub fn write_page_of<W: Out, V: Out>(
    alloc: Global,
    bytes: &[u8],
    title: &[u8],
    out: &mut W,
    err: &mut V,
) -> u8
    ensures { Answers (ShowsFile W.sink out.old out.new (titled title.now) bytes.now) page_exit V.sink err.old err.new
        result }
{
    let heading = Heading {
        title,
        turns: None,
        races: None,
    };
    answered(&show_file(alloc, bytes, &heading, out), err)
}
