//! The commands, their options and their words.
use crate::view::showing::SHOWING;
use crate::words::{Row, Word};

/// An optional file.
const FILE: &[Word] = &[Word::Free("FILE")];

/// Any number of files, or none.
const FILES: &[Word] = &[Word::Rest("FILE")];

/// Files, followed by the three words of a `race` line.
const WORDS: &[Word] = &[Word::Rest("WORD")];

/// The options for reading another tool's text. Without `--from`, the flag refuses a schedule in which a command did
/// nothing.
const TOOLS: &[Word] = &[
    Word::Option("from", 1),
    Word::Flag("strict"),
    Word::Repeated("skip"),
    Word::Repeated("join"),
];

/// The options for reading a log.
const LOGS: &[Word] = &[
    Word::Option("pattern", 1),
    Word::Option("hosts", 1),
    Word::Repeated("peer"),
    Word::Option("from-line", 1),
    Word::Option("to-line", 1),
];

/// The options for what is drawn, and how.
const DRAWING: &[Word] = &[
    Word::Option("only", 1),
    Word::Option("events", 1),
    Word::Option("rows", 1),
    Word::Option("around", 2),
    Word::Option("witness", 3),
    Word::Option("title", 1),
    Word::Flag("numbers"),
];

/// The message that is added to a chart, and whether messages are added for all races, or for some of them.
const MENDING: &[Word] = &[
    Word::Option("name", 1),
    Word::Flag("verbose"),
    Word::Flag("all"),
    Word::Flag("receives"),
    Word::Flag("run-to-completion"),
    Word::Flag("luck"),
    Word::Option("limit", 1),
];

/// Two files, and whether their differences are printed as JSON.
const TWO_FILES: &[Word] = &[Word::Flag("json"), Word::Needed("A"), Word::Needed("B")];

/// The commands and their words. Help, the version, no command and an unknown one are all mistakes.
pub(crate) const COMMANDS: [Row; 11] = [
    ("witness", &[TOOLS, LOGS, WORDS]),
    ("why", &[TOOLS, LOGS, WORDS]),
    ("draw", &[DRAWING, TOOLS, FILE]),
    ("page", &[TOOLS, LOGS, FILES]),
    ("export", &[&[Word::NeededOption("to")], FILE]),
    ("import", &[TOOLS, LOGS, FILES]),
    ("compare", &[TWO_FILES]),
    ("races", &[SHOWING, TOOLS, LOGS, FILES]),
    ("mend", &[MENDING, TOOLS, LOGS, WORDS]),
    ("tidy", &[FILE]),
    ("explain", &[FILE]),
];
