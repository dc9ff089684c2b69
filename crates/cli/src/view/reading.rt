//! The requests of a command line's words.
use crate::CommandLineError;
use crate::view::commands::COMMANDS;
use crate::view::questions::race_question;
use crate::view::request::{
    Compare, Draw, DrawWitness, Export, Import, ImportLog, LogForm, LogRaces, Page, Races, Reading,
    Request, Rows,
};
use crate::view::showing::showing_of;
use crate::words::matches_in;
use clap::ArgMatches;
use std::alloc::{AllocError, Global};
use std::convert::AsStr;

/// The event that the words after `--around` name.
fn around_of<'a>(words: &[&'a str]) -> Option<Rows<'a>> {
    Some(Rows::Around {
        instance: *words.first()?,
        event: *words.get(1)?,
    })
}

/// The rows that the words of `draw` ask for. Rows between two numbers and rows around an event exclude each other.
fn rows_of<'a>(words: &ArgMatches<'a>) -> Option<Rows<'a>> {
    match (words.get_str("rows"), words.get_strs("around")) {
        (None, None) => Some(Rows::All),
        (Some(rows), None) => Some(Rows::Between(rows)),
        (None, Some(around)) => around_of(around),
        (Some(_), Some(_)) => None,
    }
}

/// The chart beside its witness that the words of `draw` ask for, from the words after `--witness`.
fn witness_of<'a>(pair: &[&'a str], words: &ArgMatches<'a>) -> Option<Request<'a>> {
    Some(Request::DrawWitness(DrawWitness {
        instance: *pair.first()?,
        earlier: *pair.get(1)?,
        receive: *pair.get(2)?,
        only: words.get_str("only"),
        title: words.get_str("title"),
        numbers: words.get_flag("numbers"),
        file: words.get_str("FILE"),
    }))
}

/// Whether the words of `draw` have an option that is only for a single picture.
fn is_for_one(words: &ArgMatches<'_>) -> bool {
    words.get_str("events").is_some()
        || words.get_str("rows").is_some()
        || words.get_strs("around").is_some()
        || words.get_str("from").is_some()
        || words.get_str("skip").is_some()
        || words.get_str("join").is_some()
        || words.get_flag("strict")
}

/// The picture of one chart that the words of `draw` ask for.
fn picture_of<'a>(alloc: Global, words: &ArgMatches<'a>) -> Result<Request<'a>, CommandLineError> {
    Ok(Request::Draw(Draw {
        only: words.get_str("only"),
        events: words.get_str("events"),
        rows: rows_of(words).ok_or(CommandLineError::Usage)?,
        title: words.get_str("title"),
        numbers: words.get_flag("numbers"),
        reading: other_reading(alloc, words)?,
        strict: words.get_flag("strict"),
        file: words.get_str("FILE"),
    }))
}

/// The request of `draw`.
fn draw_of<'a>(alloc: Global, words: &ArgMatches<'a>) -> Result<Request<'a>, CommandLineError> {
    match words.get_strs("witness") {
        None => picture_of(alloc, words),
        Some(pair) => {
            if is_for_one(words) {
                return Err(CommandLineError::Usage);
            }
            witness_of(pair, words).ok_or(CommandLineError::Usage)
        }
    }
}

/// The request of `export`.
fn export_of<'a>(words: &ArgMatches<'a>) -> Option<Request<'a>> {
    Some(Request::Export(Export {
        to: words.get_str("to")?,
        file: words.get_str("FILE"),
    }))
}

/// The words after each use of an option.
pub(crate) fn words_of<'a>(
    alloc: Global,
    words: &ArgMatches<'a>,
    option: &str,
) -> Result<Vec<&'a str>, AllocError> {
    Vec::from_slice(alloc, words.get_strs(option).unwrap_or(&[]))
}

/// The files of a command that has no other words.
fn files_of<'a>(alloc: Global, words: &ArgMatches<'a>) -> Result<Vec<&'a str>, AllocError> {
    words_of(alloc, words, "FILE")
}

/// How another tool's text is read, from the words of a command.
fn reading_of<'a>(alloc: Global, words: &ArgMatches<'a>) -> Result<Reading<'a>, AllocError> {
    Ok(Reading {
        from: words.get_str("from"),
        strict: words.get_flag("strict"),
        skipped: words_of(alloc, words, "skip")?,
        joined: words_of(alloc, words, "join")?,
    })
}

/// How the lines of a log are written, if the words ask for a log.
pub(crate) fn log_form<'a>(words: &ArgMatches<'a>) -> Option<LogForm<'a>> {
    match (words.get_str("from"), words.get_str("pattern")) {
        (Some("log"), None) => Some(LogForm::Plain),
        (Some("log"), Some(pattern)) => Some(LogForm::Pattern(pattern)),
        (Some("shiviz"), None) => Some(LogForm::ShiViz),
        _ => None,
    }
}

/// The log of these files that the words of a command ask for. G1: there is an option for another tool's text.
pub(crate) fn log_of<'a>(
    alloc: Global,
    form: LogForm<'a>,
    words: &ArgMatches<'a>,
    files: Vec<&'a str>,
) -> Result<ImportLog<'a>, CommandLineError> {
    let reading = reading_of(alloc, words)?;
    if reading.strict || !reading.skipped.is_empty() || !reading.joined.is_empty() {
        return Err(CommandLineError::Usage);
    }
    Ok(ImportLog {
        form,
        hosts: words.get_str("hosts"),
        peers: words_of(alloc, words, "peer")?,
        from_line: words.get_str("from-line"),
        to_line: words.get_str("to-line"),
        files,
    })
}

/// Whether the words have an option for logs.
fn is_for_logs(words: &ArgMatches<'_>) -> bool {
    words.get_str("pattern").is_some()
        || words.get_str("hosts").is_some()
        || words.get_str("peer").is_some()
        || words.get_str("from-line").is_some()
        || words.get_str("to-line").is_some()
}

/// The one file of a command, if there is one. G1: there are several files, or there is an option for logs.
pub(crate) fn one_file<'a>(
    files: &[&'a str],
    words: &ArgMatches<'a>,
) -> Result<Option<&'a str>, CommandLineError> {
    if files.len() > 1 || is_for_logs(words) {
        return Err(CommandLineError::Usage);
    }
    Ok(files.first().copied())
}

/// Another tool's text that the words of `import` ask for.
fn tool_of<'a>(alloc: Global, words: &ArgMatches<'a>) -> Result<Request<'a>, CommandLineError> {
    let file = one_file(&files_of(alloc, words)?, words)?;
    Ok(Request::Import(Import {
        reading: reading_of(alloc, words)?,
        file,
    }))
}

/// The request of `import`.
fn import_of<'a>(alloc: Global, words: &ArgMatches<'a>) -> Result<Request<'a>, CommandLineError> {
    match log_form(words) {
        Some(form) => {
            let files = files_of(alloc, words)?;
            Ok(Request::ImportLog(log_of(alloc, form, words, files)?))
        }
        None => tool_of(alloc, words),
    }
}

/// How a command's file is read, if it is another tool's text. G1: there is an option of `import` without `--from`.
/// Only `--strict` is allowed then, as an option of the command itself.
pub(crate) fn other_reading<'a>(
    alloc: Global,
    words: &ArgMatches<'a>,
) -> Result<Option<Reading<'a>>, CommandLineError> {
    let reading = reading_of(alloc, words)?;
    if reading.from.is_some() {
        return Ok(Some(reading));
    }
    if !reading.skipped.is_empty() || !reading.joined.is_empty() {
        return Err(CommandLineError::Usage);
    }
    Ok(None)
}

/// The request of `compare`.
fn compare_of<'a>(words: &ArgMatches<'a>) -> Option<Request<'a>> {
    Some(Request::Compare(Compare {
        json: words.get_flag("json"),
        first: words.get_str("A")?,
        second: words.get_str("B")?,
    }))
}

/// The races of a file that the words of `races` ask for.
fn file_races_of<'a>(
    alloc: Global,
    words: &ArgMatches<'a>,
) -> Result<Request<'a>, CommandLineError> {
    let file = one_file(&files_of(alloc, words)?, words)?;
    Ok(Request::Races(Races {
        showing: showing_of(words),
        reading: other_reading(alloc, words)?,
        strict: words.get_flag("strict"),
        file,
    }))
}

/// The request of `races`.
fn races_of<'a>(alloc: Global, words: &ArgMatches<'a>) -> Result<Request<'a>, CommandLineError> {
    match log_form(words) {
        Some(form) => Ok(Request::LogRaces(LogRaces {
            showing: showing_of(words),
            log: log_of(alloc, form, words, files_of(alloc, words)?)?,
        })),
        None => file_races_of(alloc, words),
    }
}

/// The page of one file that the words of `page` ask for.
fn file_page_of<'a>(
    alloc: Global,
    words: &ArgMatches<'a>,
) -> Result<Request<'a>, CommandLineError> {
    let file = one_file(&files_of(alloc, words)?, words)?;
    match other_reading(alloc, words)? {
        Some(reading) => Ok(Request::ToolPage(Import { reading, file })),
        None => Ok(Request::Page(Page {
            strict: words.get_flag("strict"),
            file,
        })),
    }
}

/// The request of `page`.
fn page_of<'a>(alloc: Global, words: &ArgMatches<'a>) -> Result<Request<'a>, CommandLineError> {
    match log_form(words) {
        Some(form) => Ok(Request::LogPage(log_of(alloc, form, words, files_of(alloc, words)?)?)),
        None => file_page_of(alloc, words),
    }
}

/// The request of another command.
fn other_of<'a>(command: &str, words: &ArgMatches<'a>) -> Option<Request<'a>> {
    match command {
        "export" => export_of(words),
        "compare" => compare_of(words),
        "tidy" => Some(Request::Tidy(words.get_str("FILE"))),
        "explain" => Some(Request::Explain(words.get_str("FILE"))),
        _ => None,
    }
}

/// The request of a command's words.
fn request_of<'a>(
    alloc: Global,
    command: &str,
    words: &ArgMatches<'a>,
) -> Result<Request<'a>, CommandLineError> {
    match command {
        "draw" => draw_of(alloc, words),
        "import" => import_of(alloc, words),
        "races" => races_of(alloc, words),
        "page" => page_of(alloc, words),
        "why" | "witness" | "mend" => race_question(alloc, command, words),
        _ => other_of(command, words).ok_or(CommandLineError::Usage),
    }
}

/// The request of these words, of which the first is the program's name.
///
/// G1: they aren't a command line that the program understands. F6: a growth was refused.
pub fn requested<'a, S: AsStr>(
    alloc: Global,
    words: &'a [S],
) -> Result<Request<'a>, CommandLineError> {
    let matches = matches_in(alloc, "mscview", &COMMANDS, words)?;
    let (command, words) = matches.subcommand().ok_or(CommandLineError::Usage)?;
    request_of(alloc, command, words)
}
