//! Pages of logs.
ghost use Rattle.std.specs.Prelude.{◌≡◌, ◌≤◌, length, map, All, IfOk, IfSome};
ghost use Rattle.cmd_base.specs.Answers.{Answers};
ghost use Rattle.cmd_base.specs.Refusals.{Tried};
ghost use Rattle.chart.specs.Charts.{chart_lines, IsNumbered, IsPossible};
ghost use Rattle.cmd_import_log.specs.Answers.Claims.{claims_text};
ghost use Rattle.cmd_import_log.specs.Options.{options_view};
ghost use Rattle.cmd_import_log.specs.Recording.{lent_of};
ghost use Rattle.race_verdicts.specs.Luck.Recorded.{IsRecording};
ghost use Rattle.cmd_page.specs.Logs.Showing.{ShowsRaces, ShowsJudged, ShowsOther, ShowsRecording, ShowsLog, page_error_text, page_exit};
ghost use Rattle.cmd_page.specs.Marks.Pairing.{HasRange};
ghost use Rattle.cmd_page.specs.Showing.{heading_view, judged};

use crate::logs::judged::{claims_none, judged_races};
use crate::marks::RaceRange;
use crate::{Heading, show_chart_text};
use cmd_base::{ProgramError, refused};
use cmd_import_log::answers::{Diagnostics, write_claims};
use cmd_import_log::{
    ImportedLog, LogImportError, LogRecording, Options, recording_in, refused_log, refused_one_end,
};
use std::alloc::{AllocError, Global};
use texts::Out;

/// The answer after a page was written.
#[derive(Debug, Drop)]
pub struct ShownPage {
    /// The warnings of the import.
    pub diagnostics: Diagnostics,
    /// Whether there are races, and none is claimed: each is begun in the middle.
    pub is_unclaimed: bool,
}

/// The reason why no page was written.
#[derive(Debug, Drop)]
pub enum PageError {
    /// The log is refused, or memory ran out.
    Log(LogImportError),
    /// F52: the log has one end of each message, so no race is claimed. The warnings of the import name its hosts.
    OneEnd(Diagnostics),
    /// Memory ran out, or a write failed.
    Page(ProgramError),
}

/// The heading with this title and these races.
fn heading_of<'a>(title: &'a [u8], races: &'a [RaceRange]) -> Heading<'a>
    requires { All HasRange races.now }
    ensures view { heading_view result ≡ judged title.now races.now }
    ensures ranges { IfSome result.races (λ races. All HasRange races.now) }
{
    Heading {
        title,
        turns: None,
        races: Some(races),
    }
}

/// Writes the page of a chart with these races, and returns whether none of them is claimed.
fn show_races<W: Out>(
    alloc: Global,
    imported: &ImportedLog,
    title: &[u8],
    races: &[RaceRange],
    out: &mut W,
) -> Result<bool, ProgramError>
    requires named { length imported.now.diagnostics.names ≡ length imported.now.chart }
    requires have { All HasRange races.now }
    ensures { ShowsRaces W.sink out.old out.new title.now (imported.now.diagnostics.names, imported.now.chart) races.now result }
{
    let heading = heading_of(title, races);
    match show_chart_text(
        alloc,
        &imported.diagnostics.names,
        &imported.chart,
        &heading,
        out,
    ) {
        Ok(()) => Ok(claims_none(races)),
        Err(error) => Err(error),
    }
}

/// Writes the page of a recording for which luck is known, with the verdicts of its races. It allocates all memory
/// before it writes the first byte. Returns whether none of the races is claimed.
fn show_judged<W: Out>(
    alloc: Global,
    recording: &LogRecording<'_>,
    title: &[u8],
    out: &mut W,
) -> Result<bool, ProgramError>
    requires named { length recording.now.imported.diagnostics.names ≡ length recording.now.imported.chart }
    requires possible { IsPossible (length recording.now.imported.chart) (chart_lines recording.now.imported.chart) }
    requires keeps { IsRecording recording.now.imported.chart (lent_of recording.now) }
    requires numbered { IsNumbered recording.now.imported.chart }
    ensures { ShowsJudged W.sink out.old out.new title.now
        (recording.now.imported.diagnostics.names, recording.now.imported.chart) (lent_of recording.now) result }
{
    let races = match judged_races(alloc, recording) {
        Ok(races) => races,
        Err(AllocError) => return Err(ProgramError::Memory),
    };
    let list = races.as_slice();
    show_races(alloc, &recording.imported, title, list, out)
}

/// Writes the page of a log's chart without verdicts. So it isn't known whether a race is claimed.
fn show_other<W: Out>(
    alloc: Global,
    imported: &ImportedLog,
    title: &[u8],
    out: &mut W,
) -> Result<bool, ProgramError>
    requires { length imported.now.diagnostics.names ≡ length imported.now.chart }
    ensures { ShowsOther W.sink out.old out.new title.now (imported.now.diagnostics.names, imported.now.chart) result }
{
    let heading = Heading {
        title,
        turns: None,
        races: None,
    };
    match show_chart_text(
        alloc,
        &imported.diagnostics.names,
        &imported.chart,
        &heading,
        out,
    ) {
        Ok(()) => Ok(false),
        Err(error) => Err(error),
    }
}

/// Writes the page of a recording: with the verdicts of its races, if luck is known. Returns whether it is known that
/// none of them is claimed.
fn show_recording<W: Out>(
    alloc: Global,
    recording: &LogRecording<'_>,
    title: &[u8],
    out: &mut W,
) -> Result<bool, ProgramError>
    requires named { length recording.now.imported.diagnostics.names ≡ length recording.now.imported.chart }
    requires possible { IsPossible (length recording.now.imported.chart) (chart_lines recording.now.imported.chart) }
    requires keeps { IsRecording recording.now.imported.chart (lent_of recording.now) }
    requires numbered { IsNumbered recording.now.imported.chart }
    ensures { ShowsRecording W.sink out.old out.new title.now recording.now result }
{
    if recording.is_known {
        show_judged(alloc, recording, title, out)
    } else {
        show_other(alloc, &recording.imported, title, out)
    }
}

/// Reads the log and writes the page of its chart, if some receive takes a send of the log. It allocates all memory
/// before it writes the first byte.
fn show<W: Out>(
    alloc: Global,
    options: Options<'_>,
    texts: &[&[u8]],
    title: &[u8],
    out: &mut W,
) -> Result<ShownPage, PageError>
    ensures shows { ShowsLog W.sink out.old out.new (options_view options.entry) (map (λ text. text.now) texts.now) title.now result }
    ensures invented { IfOk result (λ shown. All (λ e. e.instance ≤ length shown.diagnostics.names) shown.diagnostics.invented.items) }
{
    let recording = match recording_in(alloc, options, texts) {
        Ok(recording) => recording,
        Err(error) => return Err(PageError::Log(error)),
    };
    if recording.imported.diagnostics.is_one_ended {
        return Err(PageError::OneEnd(recording.imported.diagnostics));
    }
    match show_recording(alloc, &recording, title, out) {
        Ok(is_unclaimed) => Ok(ShownPage {
            diagnostics: recording.imported.diagnostics,
            is_unclaimed,
        }),
        Err(error) => Err(PageError::Page(error)),
    }
}

/// Prints the line of a refusal, and returns the exit status.
fn refused_page<V: Out>(files: &[&[u8]], error: &PageError, err: &mut V) -> u8
    ensures status { result ≡ 2 }
    ensures line { Tried V.sink err.old err.new (page_error_text (map (λ file. file.now) files.now) error.now) }
{
    match error {
        PageError::Log(error) => refused_log(files, error, err),
        PageError::OneEnd(diagnostics) => refused_one_end(diagnostics, err),
        PageError::Page(error) => refused(error, err),
    }
}

/// Prints the warnings of the import and whether no race is claimed, and returns the exit status.
fn print_diagnostics<V: Out>(files: &[&[u8]], shown: &ShownPage, err: &mut V) -> u8
    requires { All (λ e. e.instance ≤ length shown.now.diagnostics.names) shown.now.diagnostics.invented.items }
    ensures status { result ≡ 0 }
    ensures line { Tried V.sink err.old err.new (claims_text (map (λ file. file.now) files.now) shown.now.diagnostics shown.now.is_unclaimed) }
{
    let _ = write_claims(files, &shown.diagnostics, shown.is_unclaimed, err);
    0
}

/// Writes the page of a log's chart to `out`: that of the text from `mscview import`. The log has these texts.
/// `files` has their names if there are several, and is empty for one. If luck is known, its races have their
/// verdicts. The warnings of an import go to `err`, then a line if each race is begun in the middle, so that none is
/// claimed. So does the line of a refusal. The exit status is 0 if the page was written, and 2 after a refusal. The
/// refusals are those of an import, and then a log with one end of each message (F52). Nothing is written to `out`
/// before a refusal, unless writing to it failed (F24). A failed write to `err` changes nothing.
pub fn page_of_log<W: Out, V: Out>(
    alloc: Global,
    options: Options<'_>,
    texts: &[&[u8]],
    files: &[&[u8]],
    title: &[u8],
    out: &mut W,
    err: &mut V,
) -> u8
    ensures { Answers (ShowsLog W.sink out.old out.new (options_view options.entry) (map (λ text. text.now) texts.now) title.now)
        (page_exit (map (λ file. file.now) files.now)) V.sink err.old err.new result }
{
    match show(alloc, options, texts, title, out) {
        Ok(shown) => print_diagnostics(files, &shown, err),
        Err(error) => refused_page(files, &error, err),
    }
}
