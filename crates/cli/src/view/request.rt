//! The request of a command line.
use crate::view::showing::Showing;

/// A question about a pair of events.
#[derive(Clone, Copy, Debug, PartialEq, Eq)]
pub enum Question {
    /// `witness FILE INSTANCE EARLIER RECEIVE`.
    Witness,
    /// `why [--strict] FILE INSTANCE EARLIER RECEIVE`.
    Why,
}

/// A question about two events of an instance's line. The numbers are still words.
#[derive(Clone, Copy, Debug, PartialEq, Eq)]
pub struct Pair<'a> {
    pub question: Question,
    /// Whether `--strict` is given, which is only for `why`. With `--from` it applies to the tool's text.
    pub strict: bool,
    pub file: &'a str,
    pub instance: &'a str,
    pub earlier: &'a str,
    pub receive: &'a str,
}

/// The rows to draw. The numbers are still words.
#[derive(Clone, Copy, Debug, PartialEq, Eq)]
pub enum Rows<'a> {
    All,
    /// The numbers after `--rows`, joined by two dots.
    Between(&'a str),
    /// The rows around the event after `--around`: the name of its instance, and its number.
    Around { instance: &'a str, event: &'a str },
}

/// What to draw, and how. The names and the numbers are still words.
#[derive(Debug, Drop)]
pub struct Draw<'a> {
    /// The names after `--only`, joined by commas.
    pub only: Option<&'a str>,
    /// The numbers after `--events`, joined by two dots.
    pub events: Option<&'a str>,
    pub rows: Rows<'a>,
    /// The words after `--title`.
    pub title: Option<&'a str>,
    /// Whether `--numbers` is given.
    pub numbers: bool,
    /// With `--from`: how the file, another tool's text, is read.
    pub reading: Option<Reading<'a>>,
    /// Whether `--strict` is given. With `--from` it applies to the tool's text.
    pub strict: bool,
    /// If it is missing or `-`, standard input is read.
    pub file: Option<&'a str>,
}

/// A page to write.
#[derive(Clone, Copy, Debug, PartialEq, Eq)]
pub struct Page<'a> {
    /// Whether `--strict` is given.
    pub strict: bool,
    /// If it is missing or `-`, standard input is read.
    pub file: Option<&'a str>,
}

/// A chart to draw beside its witness. The names and the numbers are still words.
#[derive(Clone, Copy, Debug, PartialEq, Eq)]
pub struct DrawWitness<'a> {
    /// The words after `--witness`.
    pub instance: &'a str,
    pub earlier: &'a str,
    pub receive: &'a str,
    /// The names after `--only`, joined by commas.
    pub only: Option<&'a str>,
    /// The words after `--title`.
    pub title: Option<&'a str>,
    /// Whether `--numbers` is given.
    pub numbers: bool,
    /// If it is missing or `-`, standard input is read.
    pub file: Option<&'a str>,
}

/// A text to write for another tool.
#[derive(Clone, Copy, Debug, PartialEq, Eq)]
pub struct Export<'a> {
    /// The word after `--to`.
    pub to: &'a str,
    /// If it is missing or `-`, standard input is read.
    pub file: Option<&'a str>,
}

/// How to read another tool's text. The lines and the names are still words.
#[derive(Debug, Drop)]
pub struct Reading<'a> {
    /// The word after `--from`. Without it the text itself shows the tool.
    pub from: Option<&'a str>,
    /// Whether `--strict` is given.
    pub strict: bool,
    /// The lines after each `--skip`, joined by two dots, in the order of the command line.
    pub skipped: Vec<&'a str>,
    /// The words after each `--join`, in the order of the command line.
    pub joined: Vec<&'a str>,
}

/// Another tool's text to read.
#[derive(Debug, Drop)]
pub struct Import<'a> {
    pub reading: Reading<'a>,
    /// If it is missing or `-`, standard input is read.
    pub file: Option<&'a str>,
}

/// How the lines of a log are written.
#[derive(Clone, Copy, Debug, PartialEq, Eq)]
pub enum LogForm<'a> {
    /// `--from log`.
    Plain,
    /// `--from log --pattern REGEX`.
    Pattern(&'a str),
    /// `--from shiviz`.
    ShiViz,
}

/// A log to read. The hosts and the numbers are still words.
#[derive(Debug, Drop)]
pub struct ImportLog<'a> {
    pub form: LogForm<'a>,
    /// The names after `--hosts`, joined by commas.
    pub hosts: Option<&'a str>,
    /// The words after each `--peer`, in the order of the command line.
    pub peers: Vec<&'a str>,
    /// The number after `--from-line`.
    pub from_line: Option<&'a str>,
    /// The number after `--to-line`.
    pub to_line: Option<&'a str>,
    /// If there are none, or `-` is the only one, standard input is read.
    pub files: Vec<&'a str>,
}

/// Two recordings to compare.
#[derive(Clone, Copy, Debug, PartialEq, Eq)]
pub struct Compare<'a> {
    /// Whether `--json` is given.
    pub json: bool,
    pub first: &'a str,
    pub second: &'a str,
}

/// The races of a file to show.
#[derive(Debug, Drop)]
pub struct Races<'a> {
    pub showing: Showing<'a>,
    /// With `--from`: how the file, another tool's text, is read.
    pub reading: Option<Reading<'a>>,
    /// Whether `--strict` is given. With `--from` it applies to the tool's text.
    pub strict: bool,
    /// If it is missing or `-`, standard input is read.
    pub file: Option<&'a str>,
}

/// The races of a log to show.
#[derive(Debug, Drop)]
pub struct LogRaces<'a> {
    pub showing: Showing<'a>,
    pub log: ImportLog<'a>,
}

/// The races to mend by additional messages. The name and the numbers are still words.
#[derive(Clone, Copy, Debug, PartialEq, Eq)]
pub enum Mend<'a> {
    /// One race.
    One {
        /// The name after `--name`.
        name: Option<&'a str>,
        /// Whether `--verbose` is given.
        verbose: bool,
        file: &'a str,
        instance: &'a str,
        earlier: &'a str,
        receive: &'a str,
    },
    /// All races, with `--all`.
    All {
        /// Whether `--receives` is given.
        receives: bool,
        /// Whether `--run-to-completion` is given.
        run_to_completion: bool,
        /// The number after `--limit`.
        limit: Option<&'a str>,
        /// If it is missing or `-`, standard input is read.
        file: Option<&'a str>,
    },
}

/// The races of a log to mend that were luck. The number is still a word.
#[derive(Debug, Drop)]
pub struct MendLuck<'a> {
    /// Whether `--receives` is given.
    pub receives: bool,
    /// Whether `--run-to-completion` is given.
    pub run_to_completion: bool,
    /// The number after `--limit`.
    pub limit: Option<&'a str>,
    pub log: ImportLog<'a>,
}

/// A question about the races of a chart. If the chart is imported first, the import has the files, and the file here
/// is the first of them, or `-`.
#[derive(Clone, Copy, Debug, PartialEq, Eq)]
pub enum RaceQuestion<'a> {
    /// By `why` or `witness`.
    Pair(Pair<'a>),
    /// By `mend`.
    Mend(Mend<'a>),
}

/// A question about the races of another tool's diagram.
#[derive(Debug, Drop)]
pub struct ToolQuestion<'a> {
    pub asked: RaceQuestion<'a>,
    pub import: Import<'a>,
}

/// A question about the races of a log.
#[derive(Debug, Drop)]
pub struct LogQuestion<'a> {
    pub asked: RaceQuestion<'a>,
    pub log: ImportLog<'a>,
}

/// The request of a command line.
#[derive(Debug, Drop)]
pub enum Request<'a> {
    /// `why` and `witness`, which ask about two events.
    Pair(Pair<'a>),
    /// `draw [--only NAME,NAME..] [--events A..B] [--rows A..B | --around INSTANCE N] [--numbers] [--title TEXT]
    /// [--strict] [FILE]`, and with `--from TOOL` the options of `import`.
    Draw(Draw<'a>),
    /// `draw --witness INSTANCE EARLIER RECEIVE [--only NAME,NAME..] [--numbers] [--title TEXT] [FILE]`.
    DrawWitness(DrawWitness<'a>),
    /// `page [--strict] [FILE]`.
    Page(Page<'a>),
    /// `page --from TOOL [--strict] [--skip A..B].. [--join NAME=NAME,NAME..].. [FILE]`.
    ToolPage(Import<'a>),
    /// `page --from log|shiviz` with the options of `import`, and `[FILE..]`.
    LogPage(ImportLog<'a>),
    /// `export --to TOOL [FILE]`.
    Export(Export<'a>),
    /// `import [--from TOOL] [--strict] [--skip A..B].. [--join NAME=NAME,NAME..].. [FILE]`.
    Import(Import<'a>),
    /// `import --from log|shiviz [--pattern REGEX] [--hosts NAME,NAME..] [--peer NAME=NAME,NAME..].. [--from-line A]
    /// [--to-line B] [FILE..]`.
    ImportLog(ImportLog<'a>),
    /// `compare [--json] A B`.
    Compare(Compare<'a>),
    /// `races [--only NAME,NAME..] [--receives] [--run-to-completion] [--luck] [--json] [--strict] [FILE]`, and with
    /// `--from TOOL` the options of `import`.
    Races(Races<'a>),
    /// `races --from log|shiviz` with the options of `races` and of `import`, and `[FILE..]`.
    LogRaces(LogRaces<'a>),
    /// `mend [--name NAME] [--verbose] FILE INSTANCE EARLIER RECEIVE`, or `mend --all [--receives]
    /// [--run-to-completion] [--limit N] [FILE]`.
    Mend(Mend<'a>),
    /// `why`, `witness` or `mend` with `--from TOOL` and the options of `import`, and `[FILE]` before the words of a
    /// `race` line.
    ToolQuestion(ToolQuestion<'a>),
    /// `why`, `witness` or `mend` with `--from log|shiviz` and the options of `import`, and `[FILE..]` before the words
    /// of a `race` line.
    LogQuestion(LogQuestion<'a>),
    /// `mend --all --luck --from log|shiviz` with the other options of `mend --all` and those of `import`, and
    /// `[FILE..]`.
    MendLuck(MendLuck<'a>),
    /// `tidy [FILE]`: if the file is missing or `-`, standard input is read.
    Tidy(Option<&'a str>),
    /// `explain [FILE]`: if the file is missing or `-`, standard input is read.
    Explain(Option<&'a str>),
}
