//! The races of a log, by the names of their messages.
ghost use Rattle.std.specs.Prelude.{◌≡◌, ◌≤◌, length, map, All, IfOk};
ghost use Rattle.cmd_base.specs.Answers.{Answers};
ghost use Rattle.cmd_base.specs.Refusals.{Tried};
ghost use Rattle.cmd_base.specs.Statuses.{code_of};
ghost use Rattle.cmd_import_log.specs.Options.{options_view};
ghost use Rattle.cmd_races.specs.Logs.Showing.{ShowsRecording, ShowsLog};
ghost use Rattle.cmd_races.specs.Logs.Showing.{shown_text, race_show_error_text, races_exit};

use crate::LuckWanted;
use crate::logs::known::{ShownRaces, show_recording};
use cmd_base::Answer;
use cmd_base::columns::ColumnError;
use cmd_import_log::answers::{Diagnostics, write_claims};
use cmd_import_log::{
    LogImportError, LogRecording, Options, recording_in, refused_log, refused_one_end,
};
use std::alloc::Global;
use texts::Out;

/// The answer after races were written: whether one is shown, whether none is claimed, and the warnings of the
/// import.
#[derive(Debug, Drop)]
pub struct Shown {
    pub races: ShownRaces,
    pub diagnostics: Diagnostics,
}

/// The reason why no races were written.
#[derive(Debug, Drop)]
pub enum RaceShowError {
    /// The log is refused, or memory ran out.
    Log(LogImportError),
    /// F52: the log has one end of each message, so no race is claimed. The warnings of the import name its hosts.
    OneEnd(Diagnostics),
    /// A name isn't one of the chart's, luck isn't known, memory ran out, or a write failed.
    Races(ColumnError),
}

/// Reads the log and writes the wanted races of its chart, if some receive takes a send of the log. It allocates all
/// memory before it writes the first byte.
fn show<W: Out>(
    alloc: Global,
    options: Options<'_>,
    texts: &[&[u8]],
    wanted: &LuckWanted<'_>,
    out: &mut W,
) -> Result<Shown, RaceShowError>
    ensures shows { ShowsLog W.sink out.old out.new (options_view options.entry) (map (λ text. text.now) texts.now) wanted.now result }
    ensures invented { IfOk result (λ shown. All (λ e. e.instance ≤ length shown.diagnostics.names) shown.diagnostics.invented.items) }
{
    let recording = match recording_in(alloc, options, texts) {
        Ok(recording) => recording,
        Err(error) => return Err(RaceShowError::Log(error)),
    };
    if recording.imported.diagnostics.is_one_ended {
        return Err(RaceShowError::OneEnd(recording.imported.diagnostics));
    }
    match show_recording(alloc, &recording, wanted, out) {
        Ok(races) => Ok(Shown {
            races,
            diagnostics: recording.imported.diagnostics,
        }),
        Err(error) => Err(RaceShowError::Races(error)),
    }
}

/// Prints the line of a refusal, and returns the exit status.
fn refused<V: Out>(files: &[&[u8]], error: &RaceShowError, err: &mut V) -> u8
    ensures status { result ≡ 2 }
    ensures line { Tried V.sink err.old err.new (race_show_error_text (map (λ file. file.now) files.now) error.now) }
{
    match error {
        RaceShowError::Log(error) => refused_log(files, error, err),
        RaceShowError::OneEnd(diagnostics) => refused_one_end(diagnostics, err),
        RaceShowError::Races(error) => {
            error.print_diagnostics(err);
            2
        }
    }
}

/// Prints the warnings of the import and whether no race is claimed, and returns the exit status.
fn print_diagnostics<V: Out>(files: &[&[u8]], shown: &Shown, err: &mut V) -> u8
    requires { All (λ e. e.instance ≤ length shown.now.diagnostics.names) shown.now.diagnostics.invented.items }
    ensures status { result ≡ code_of shown.now.races.status }
    ensures line { Tried V.sink err.old err.new (shown_text (map (λ file. file.now) files.now) shown.now) }
{
    let _ = write_claims(files, &shown.diagnostics, shown.races.is_unclaimed, err);
    shown.races.status.status()
}

/// Writes the races of a log's chart to `out`, by the names of their messages. The log has these texts. `files` has
/// their names if there are several, and is empty for one. There is a line for each range of earlier events, or a
/// JSON object for each receive. If luck is known, each range has one verdict and its word, or only the ranges of
/// luck are written.
///
/// The warnings of an import go to `err`, then a line if each selected race is begun in the middle, so that none is
/// claimed. So does the line of a refusal. The exit status is 1 if a race is shown. If none is, it is 3 if there are
/// selected races and none is claimed, and otherwise 0. It is 2 after a refusal.
///
/// The refusals of an import come first. A log with one end of each message follows (F52), then F34, then luck if it
/// isn't known (G1). Nothing is written to `out` before a refusal, unless writing to it failed (F24). A failed write
/// to `err` changes nothing.
pub fn races_of_log<W: Out, V: Out>(
    alloc: Global,
    options: Options<'_>,
    texts: &[&[u8]],
    files: &[&[u8]],
    wanted: &LuckWanted<'_>,
    out: &mut W,
    err: &mut V,
) -> u8
    ensures { Answers (ShowsLog W.sink out.old out.new (options_view options.entry) (map (λ text. text.now) texts.now) wanted.now)
        (races_exit (map (λ file. file.now) files.now)) V.sink err.old err.new result }
{
    match show(alloc, options, texts, wanted, out) {
        Ok(shown) => print_diagnostics(files, &shown, err),
        Err(error) => refused(files, &error, err),
    }
}
