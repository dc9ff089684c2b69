//! Questions of `why`, `witness` and `mend` about an imported chart. The import writes the chart's text into memory,
//! and the command reads this text.
ghost use Rattle.std.specs.Prelude.{◌≡◌, ◌≤◌, length, map, All, IfOk};
ghost use Rattle.cmd_base.specs.Refusals.{Tried};
ghost use Rattle.cmd_import_log.specs.Answers.Diagnostics.{diagnostics_text};
ghost use Rattle.cmd_import_log.specs.Options.{options_view as log_options_view};
ghost use Rattle.diagram_import.specs.Importing.{options_view};
ghost use Rattle.msc_text.specs.ChartText.{chart_text};
ghost use Rattle.mscview_requests.specs.Questions.{IsPairQuestion, IsMendQuestion, IsQuestion};
ghost use Rattle.mscview_requests.specs.Effects.{DoesQuestion, DoesOverDiagram, DoesOverLog};
ghost use Rattle.mscview_requests.specs.Words.Words.{Says};

use crate::asking::{answer_pair, asked_by};
use crate::mends::{all_wanted_by, wanted_by};
use chart::{Chart, Names};
use cli::view::{Mend, Pair, Question, RaceQuestion};
use cmd_base::pairs::Asked;
use cmd_base::{Answer, ProgramError};
use cmd_import_diagram::refused_diagram;
use cmd_import_log::answers::{Diagnostics, write_diagnostics};
use cmd_import_log::{LogImportError, refused_log, refused_one_end};
use cmd_mend::{Wanted, WantedAll, mend, mend_all};
use diagram_import::{ImportError, Options};
use diagram_tool::Tool;
use std::alloc::{AllocError, Global};
use texts::{MemoryOut, Out};

/// A question about the races of a chart, read from the words of a command line.
#[derive(Drop)]
pub(crate) enum ReadQuestion<'a> {
    /// The question of `why` or `witness`.
    Pair(Question, Asked<'a>),
    /// The question of `mend` about one race.
    Mend(Wanted<'a>),
    /// The question of `mend --all`.
    MendAll(WantedAll),
}

/// The question of `why` or `witness`. G1: a word isn't a number.
fn pair_by<'a>(pair: &Pair<'a>) -> Result<ReadQuestion<'a>, ProgramError>
    ensures { Says (IsPairQuestion pair.now) result }
{
    let asked = asked_by(pair.instance, pair.earlier, pair.receive)?;
    Ok(ReadQuestion::Pair(pair.question, asked))
}

/// The question of `mend`. G1: a word isn't a number.
fn mend_by<'a>(mend: &Mend<'a>) -> Result<ReadQuestion<'a>, ProgramError>
    ensures { Says (IsMendQuestion mend.now) result }
{
    match mend {
        Mend::One {
            name,
            verbose,
            file: _,
            instance,
            earlier,
            receive,
        } => {
            let wanted = wanted_by(*name, *verbose, *instance, *earlier, *receive)?;
            Ok(ReadQuestion::Mend(wanted))
        }
        Mend::All {
            receives,
            run_to_completion,
            limit,
            file: _,
        } => {
            let wanted = all_wanted_by(*receives, *run_to_completion, *limit)?;
            Ok(ReadQuestion::MendAll(wanted))
        }
    }
}

/// The question of a command line. G1: a word isn't a number.
pub(crate) fn question_by<'a>(asked: &RaceQuestion<'a>) -> Result<ReadQuestion<'a>, ProgramError>
    ensures { Says (IsQuestion asked.now) result }
{
    match asked {
        RaceQuestion::Pair(pair) => pair_by(pair),
        RaceQuestion::Mend(mend) => mend_by(mend),
    }
}

/// Answers a question about the text of a chart.
fn answer<W: Out, V: Out>(
    alloc: Global,
    question: &ReadQuestion<'_>,
    text: &[u8],
    out: &mut W,
    err: &mut V,
) -> u8
    ensures { DoesQuestion W.sink out.old out.new V.sink err.old err.new question.now text.now result }
{
    match question {
        ReadQuestion::Pair(question, asked) => answer_pair(alloc, *question, text, asked, out, err),
        ReadQuestion::Mend(wanted) => mend(alloc, text, wanted, out, err),
        ReadQuestion::MendAll(wanted) => mend_all(alloc, text, wanted, out, err),
    }
}

/// The text of a chart, in memory.
fn text_of(alloc: Global, names: &Names, chart: &Chart) -> Result<Vec<u8>, AllocError>
    requires { length names.now ≡ length chart.now }
    ensures { IfOk result (λ text. text.items ≡ chart_text names.now chart.now) }
{
    let mut out = MemoryOut::new(alloc);
    match msc_text::write(names, chart, &mut out) {
        Ok(()) => Ok(out.into_bytes()),
        Err(_) => Err(AllocError),
    }
}

/// Answers a question about the chart of another tool's text, after the import has printed its warnings.
pub(crate) fn answer_of_diagram<W: Out, V: Out>(
    alloc: Global,
    question: &ReadQuestion<'_>,
    tool: Option<Tool>,
    bytes: &[u8],
    options: Options<'_>,
    out: &mut W,
    err: &mut V,
) -> u8
    ensures { DoesOverDiagram W.sink out.old out.new V.sink err.old err.new
        (question.now, (tool, options_view options.entry)) bytes.now result }
{
    let imported = match cmd_import_diagram::imported_diagram(alloc, tool, bytes, options) {
        Ok(imported) => imported,
        Err(error) => return refused_diagram(&error, err),
    };
    let text = match text_of(alloc, &imported.names, &imported.chart) {
        Ok(text) => text,
        Err(AllocError) => return refused_diagram(&ImportError::Memory, err),
    };
    imported.diagnostics.print_diagnostics(err);
    answer(alloc, question, &text, out, err)
}

/// Prints the warnings of the import of a log.
fn print_log_diagnostics<V: Out>(files: &[&[u8]], diagnostics: &Diagnostics, err: &mut V)
    requires { All (λ e. e.instance ≤ length diagnostics.now.names) diagnostics.now.invented.items }
    ensures { Tried V.sink err.old err.new (diagnostics_text (map (λ file. file.now) files.now) diagnostics.now) }
{
    let _ = write_diagnostics(files, diagnostics, err);
}

/// Answers a question about the chart of a log, after the import has printed its warnings. F52: the log has one end of
/// each message, so it shows no race.
pub(crate) fn answer_of_log<W: Out, V: Out>(
    alloc: Global,
    question: &ReadQuestion<'_>,
    options: cmd_import_log::Options<'_>,
    texts: &[&[u8]],
    files: &[&[u8]],
    out: &mut W,
    err: &mut V,
) -> u8
    ensures { DoesOverLog W.sink out.old out.new V.sink err.old err.new (map (λ file. file.now) files.now)
        (question.now, log_options_view options.entry) (map (λ text. text.now) texts.now) result }
{
    let imported = match cmd_import_log::imported_log(alloc, options, texts) {
        Ok(imported) => imported,
        Err(error) => return refused_log(files, &error, err),
    };
    if imported.diagnostics.is_one_ended {
        return refused_one_end(&imported.diagnostics, err);
    }
    let text = match text_of(alloc, &imported.diagnostics.names, &imported.chart) {
        Ok(text) => text,
        Err(AllocError) => return refused_log(files, &LogImportError::Memory, err),
    };
    print_log_diagnostics(files, &imported.diagnostics, err);
    answer(alloc, question, &text, out, err)
}
