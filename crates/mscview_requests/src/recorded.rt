//! Logs: their charts, and the races and pages of these charts.
ghost use Rattle.std.specs.Prelude.{◌≡◌, ◌∷◌, [], map, option_map, IfOk, Some};
ghost use Rattle.mscview_requests.specs.FileBytes.{bytes_of};
ghost use Rattle.mscview_requests.specs.Given.{file_named, files_named, diagnostic_files, AreAnswered};
ghost use Rattle.mscview_requests.specs.Opening.{OpensLog};
ghost use Rattle.mscview_requests.specs.Effects.{ViewsLog, ViewsLogPage, ViewsLogQuestion, ViewsLogRaces, ViewsMendLuck};
ghost use Rattle.mscview_requests.specs.Wanted.{AreJudged, IsNameOf, first_path, titled_path};

use crate::drawing::file_title;
use crate::file_bytes::FileBytes;
use crate::giving::{Giver, first_in};
use crate::log_words::{LogWords, log_words, options_of, peers_by};
use crate::mends::all_wanted_by;
use crate::questions::{answer_of_log, question_by};
use crate::racing::wanted_by;
use cli::view::{ImportLog, LogQuestion, LogRaces, MendLuck, Showing};
use cmd_base::ProgramError;
use cmd_import_log::import;
use cmd_mend::logs::mend_luck_of_log;
use cmd_page::logs::page_of_log;
use cmd_races::LuckWanted;
use cmd_races::logs::races_of_log;
use std::alloc::{AllocError, AllocFailed, Global};
use texts::Out;

/// The bytes of several files, in order.
fn all_in<'a, G: Giver>(
    alloc: Global,
    giver: &'a G,
    files: &[&str],
) -> Result<Vec<FileBytes<'a>>, ProgramError>
    ensures { AreAnswered (G.gives giver.now) (map (λ w. Some w.now) files.now) result }
{
    let mut texts = Vec::new(alloc);
    for place in 0..files.len() {
        let text = giver.bytes_in(alloc, place, Some(files[place]))?;
        match texts.push(text) {
            Ok(()) => {}
            Err(AllocFailed { .. }) => return Err(ProgramError::Memory),
        }
    }
    Ok(texts)
}

/// The bytes of one file. Without a file, or if it is `-`, these are the bytes of standard input.
fn one_in<'a, G: Giver>(
    alloc: Global,
    giver: &'a G,
    file: Option<&str>,
) -> Result<Vec<FileBytes<'a>>, ProgramError>
    ensures { AreAnswered (G.gives giver.now) (file_named (option_map (λ w. w.now) file.entry) ∷ []) result }
{
    let mut texts = Vec::new(alloc);
    let text = first_in(alloc, giver, file)?;
    match texts.push(text) {
        Ok(()) => {}
        Err(AllocFailed { .. }) => return Err(ProgramError::Memory),
    }
    Ok(texts)
}

/// The bytes of the files. Without a file, or if the only one is `-`, these are the bytes of standard input.
fn texts_in<'a, G: Giver>(
    alloc: Global,
    giver: &'a G,
    files: &[&str],
) -> Result<Vec<FileBytes<'a>>, ProgramError>
    ensures { AreAnswered (G.gives giver.now) (files_named (map (λ w. w.now) files.now)) result }
{
    if files.len() > 1 {
        return all_in(alloc, giver, files);
    }
    match files.first() {
        None => one_in(alloc, giver, None),
        Some(file) => one_in(alloc, giver, Some(*file)),
    }
}

/// The names that diagnostics print with the lines of several files. For one file the list is empty.
fn diagnostic_files<'a>(alloc: Global, files: &[&'a str]) -> Result<Vec<&'a [u8]>, AllocError>
    ensures { IfOk result (λ names. map (λ w. w.now) names.items ≡ diagnostic_files (map (λ w. w.now) files.now)) }
{
    if files.len() < 2 {
        return Ok(Vec::new(alloc));
    }
    files.iter().map(|file| file.as_bytes()).collect(alloc)
}

/// The bytes of texts.
fn slices_of<'a>(alloc: Global, texts: &'a [FileBytes<'_>]) -> Result<Vec<&'a [u8]>, AllocError>
    ensures { IfOk result (λ slices. map (λ w. w.now) slices.items ≡ map bytes_of texts.now) }
{
    texts.iter().map(|text| text.as_slice()).collect(alloc)
}

/// An opened log: how it is read, the bytes of its files, and the names that diagnostics print with the lines of
/// several files.
struct OpenLog<'a> {
    words: LogWords<'a>,
    texts: Vec<FileBytes<'a>>,
    names: Vec<&'a [u8]>,
}

// (written by hand: each exit of a function that holds an `OpenLog` calls this, and needs no proof for its fields)
impl Drop for OpenLog<'_> {
    #[inline(never)]
    fn drop(self) {
        let OpenLog {
            words: _,
            texts: _,
            names: _,
        } = self;
    }
}

/// Opens a log: reads the words first, and then the files.
fn open_log<'a, G: Giver>(
    alloc: Global,
    log: &ImportLog<'a>,
    giver: &'a G,
) -> Result<OpenLog<'a>, ProgramError>
    ensures { OpensLog (G.gives giver.now) log.now result }
{
    let words = log_words(alloc, log)?;
    let texts = texts_in(alloc, giver, &log.files)?;
    let names = match diagnostic_files(alloc, &log.files) {
        Ok(names) => names,
        Err(AllocError) => return Err(ProgramError::Memory),
    };
    Ok(OpenLog {
        words,
        texts,
        names,
    })
}

/// Writes the chart of a log.
pub(crate) fn view_log<G: Giver, W: Out, V: Out>(
    alloc: Global,
    imported: &ImportLog<'_>,
    giver: &G,
    out: &mut W,
    err: &mut V,
) -> Result<u8, ProgramError>
    ensures { ViewsLog (G.gives giver.now) W.sink out.old out.new V.sink err.old err.new imported.now result }
{
    let log = open_log(alloc, imported, giver)?;
    let peers = peers_by(alloc, &log.words)?;
    let slices = match slices_of(alloc, &log.texts) {
        Ok(slices) => slices,
        Err(AllocError) => return Err(ProgramError::Memory),
    };
    let options = options_of(&log.words, &peers);
    Ok(import(alloc, options, &slices, &log.names, out, err))
}

/// The title of a log: the name of its first file without the folder. Standard input has an empty title.
fn log_title<'a>(files: &[&'a str]) -> &'a [u8]
    ensures { IsNameOf (titled_path (first_path (map (λ w. w.now) files.now))) result.now }
{
    match files.first() {
        None => file_title(None),
        Some(file) => file_title(Some(*file)),
    }
}

/// Writes the page of a log, with the title that a picture of its first file has.
pub(crate) fn view_log_page<G: Giver, W: Out, V: Out>(
    alloc: Global,
    wanted: &ImportLog<'_>,
    giver: &G,
    out: &mut W,
    err: &mut V,
) -> Result<u8, ProgramError>
    ensures { ViewsLogPage (G.gives giver.now) W.sink out.old out.new V.sink err.old err.new wanted.now result }
{
    let log = open_log(alloc, wanted, giver)?;
    let peers = peers_by(alloc, &log.words)?;
    let slices = match slices_of(alloc, &log.texts) {
        Ok(slices) => slices,
        Err(AllocError) => return Err(ProgramError::Memory),
    };
    let options = options_of(&log.words, &peers);
    let title = log_title(&wanted.files);
    Ok(page_of_log(alloc, options, &slices, &log.names, title, out, err))
}

/// The races of a log to show, and their form.
fn judged_by<'a>(showing: &Showing<'a>) -> LuckWanted<'a>
    ensures { AreJudged showing.now result }
{
    LuckWanted {
        races: wanted_by(showing),
        luck: showing.luck,
    }
}

/// Shows the races of a log by name.
pub(crate) fn view_log_races<G: Giver, W: Out, V: Out>(
    alloc: Global,
    asked: &LogRaces<'_>,
    giver: &G,
    out: &mut W,
    err: &mut V,
) -> Result<u8, ProgramError>
    ensures { ViewsLogRaces (G.gives giver.now) W.sink out.old out.new V.sink err.old err.new asked.now result }
{
    let log = open_log(alloc, &asked.log, giver)?;
    let peers = peers_by(alloc, &log.words)?;
    let slices = match slices_of(alloc, &log.texts) {
        Ok(slices) => slices,
        Err(AllocError) => return Err(ProgramError::Memory),
    };
    let options = options_of(&log.words, &peers);
    let wanted = judged_by(&asked.showing);
    Ok(races_of_log(alloc, options, &slices, &log.names, &wanted, out, err))
}

/// Imports a log, and answers a question about its chart.
pub(crate) fn view_log_question<G: Giver, W: Out, V: Out>(
    alloc: Global,
    wanted: &LogQuestion<'_>,
    giver: &G,
    out: &mut W,
    err: &mut V,
) -> Result<u8, ProgramError>
    ensures { ViewsLogQuestion (G.gives giver.now) W.sink out.old out.new V.sink err.old err.new wanted.now result }
{
    let question = question_by(&wanted.asked)?;
    let log = open_log(alloc, &wanted.log, giver)?;
    let peers = peers_by(alloc, &log.words)?;
    let slices = match slices_of(alloc, &log.texts) {
        Ok(slices) => slices,
        Err(AllocError) => return Err(ProgramError::Memory),
    };
    let options = options_of(&log.words, &peers);
    Ok(answer_of_log(alloc, &question, options, &slices, &log.names, out, err))
}

/// Adds messages for those races of a log that were luck.
pub(crate) fn view_mend_luck<G: Giver, W: Out, V: Out>(
    alloc: Global,
    wanted: &MendLuck<'_>,
    giver: &G,
    out: &mut W,
    err: &mut V,
) -> Result<u8, ProgramError>
    ensures { ViewsMendLuck (G.gives giver.now) W.sink out.old out.new V.sink err.old err.new wanted.now result }
{
    let asked = all_wanted_by(wanted.receives, wanted.run_to_completion, wanted.limit)?;
    let log = open_log(alloc, &wanted.log, giver)?;
    let peers = peers_by(alloc, &log.words)?;
    let slices = match slices_of(alloc, &log.texts) {
        Ok(slices) => slices,
        Err(AllocError) => return Err(ProgramError::Memory),
    };
    let options = options_of(&log.words, &peers);
    Ok(mend_luck_of_log(alloc, options, &slices, &log.names, &asked, out, err))
}
