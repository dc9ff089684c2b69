//! Which races to show, and how: the options, their request, and how they are read.
use crate::Word;
use clap::ArgMatches;

/// The options of `races`, except for those for reading another tool's text or a log.
pub(crate) const SHOWING: &[Word] = &[
    Word::Option("only", 1),
    Word::Flag("receives"),
    Word::Flag("run-to-completion"),
    Word::Flag("luck"),
    Word::Flag("json"),
];

/// Which races to show, and how. The names are still words.
#[derive(Clone, Copy, Debug, PartialEq, Eq)]
pub struct Showing<'a> {
    /// The names after `--only`, joined by commas.
    pub only: Option<&'a str>,
    /// Whether `--receives` is given.
    pub receives: bool,
    /// Whether `--run-to-completion` is given.
    pub run_to_completion: bool,
    /// Whether `--luck` is given.
    pub luck: bool,
    /// Whether `--json` is given.
    pub json: bool,
}

/// Which races the words of `races` ask for.
pub(crate) fn showing_of<'a>(words: &ArgMatches<'a>) -> Showing<'a> {
    Showing {
        only: words.get_str("only"),
        receives: words.get_flag("receives"),
        run_to_completion: words.get_flag("run-to-completion"),
        luck: words.get_flag("luck"),
        json: words.get_flag("json"),
    }
}
