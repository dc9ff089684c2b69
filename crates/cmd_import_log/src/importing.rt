//! What `mscview import` does with the bytes of a log.
ghost use Rattle.std.specs.Prelude.{◌≡◌, ◌≤◌, length, map, All, IfOk};
ghost use Rattle.cmd_base.specs.Answers.{Answers};
ghost use Rattle.cmd_base.specs.Refusals.{Tried};
ghost use Rattle.cmd_import_log.specs.Answers.Diagnostics.{diagnostics_text};
ghost use Rattle.cmd_import_log.specs.Importing.{Imports, imported_exit, log_write_error_text};
ghost use Rattle.cmd_import_log.specs.Options.{options_view};

use crate::answers::{Diagnostics, write_diagnostics};
use crate::error::LogImportError;
use crate::imported::imported_log;
use crate::options::Options;
use crate::refusing::refused_log;
use cmd_base::refused_by;
use std::alloc::Global;
use texts::Out;

/// The reason why no chart was written.
#[derive(Debug, Drop)]
pub enum LogWriteError {
    /// The log is refused, or memory ran out.
    Log(LogImportError),
    /// F24: a write failed.
    Write,
}

/// Reads the log and writes its chart. It allocates all memory before it writes the first byte.
fn translate<W: Out>(
    alloc: Global,
    options: Options<'_>,
    texts: &[&[u8]],
    out: &mut W,
) -> Result<Diagnostics, LogWriteError>
    ensures imports { Imports W.sink out.old out.new result (options_view options.entry) (map (λ text. text.now) texts.now) }
    ensures invented { IfOk result (λ diagnostics. All (λ e. e.instance ≤ length diagnostics.names) diagnostics.invented.items) }
{
    let imported = match imported_log(alloc, options, texts) {
        Ok(imported) => imported,
        Err(error) => return Err(LogWriteError::Log(error)),
    };
    match msc_text::write(&imported.diagnostics.names, &imported.chart, out) {
        Ok(()) => Ok(imported.diagnostics),
        Err(_) => Err(LogWriteError::Write),
    }
}

/// Prints the line of a refusal, and returns the exit status.
fn refused<V: Out>(files: &[&[u8]], error: &LogWriteError, err: &mut V) -> u8
    ensures status { result ≡ 2 }
    ensures line { Tried V.sink err.old err.new (log_write_error_text (map (λ file. file.now) files.now) error.now) }
{
    match error {
        LogWriteError::Log(error) => refused_log(files, error, err),
        LogWriteError::Write => refused_by(b"F24 Write", None, err),
    }
}

/// Prints the warnings, and returns the exit status.
fn print_diagnostics<V: Out>(files: &[&[u8]], diagnostics: &Diagnostics, err: &mut V) -> u8
    requires { All (λ e. e.instance ≤ length diagnostics.now.names) diagnostics.now.invented.items }
    ensures status { result ≡ 0 }
    ensures line { Tried V.sink err.old err.new (diagnostics_text (map (λ file. file.now) files.now) diagnostics.now) }
{
    let _ = write_diagnostics(files, diagnostics, err);
    0
}

/// Writes the text of a log's chart to `out`, and its warnings to `err`. The log has these texts. `files` has their
/// names if there are several, and is empty for one. A refusal's line goes to `err`. The exit status is 0 if the
/// chart was written, and 2 after a refusal. Nothing is written to `out` before a refusal, unless writing to it
/// failed (F24). A failed write to `err` changes nothing.
pub fn import<W: Out, V: Out>(
    alloc: Global,
    options: Options<'_>,
    texts: &[&[u8]],
    files: &[&[u8]],
    out: &mut W,
    err: &mut V,
) -> u8
    ensures { Answers (λ done. Imports W.sink out.old out.new done (options_view options.entry) (map (λ text. text.now) texts.now))
        (imported_exit (map (λ file. file.now) files.now)) V.sink err.old err.new result }
{
    match translate(alloc, options, texts, out) {
        Ok(diagnostics) => print_diagnostics(files, &diagnostics, err),
        Err(error) => refused(files, &error, err),
    }
}
