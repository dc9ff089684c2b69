//! The requests of `why`, `witness` and `mend`: the last three words are those of a `race` line, and all words before
//! them are files.
use crate::CommandLineError;
use crate::view::reading::{log_form, log_of, one_file, other_reading, words_of};
use crate::view::request::{
    Import, ImportLog, LogQuestion, Mend, MendLuck, Pair, Question, RaceQuestion, Request,
    ToolQuestion,
};
use clap::ArgMatches;
use std::alloc::Global;

/// The question of a command about two events.
fn question_of(command: &str) -> Option<Question> {
    match command {
        "witness" => Some(Question::Witness),
        "why" => Some(Question::Why),
        _ => None,
    }
}

/// The words of a `race` line.
#[derive(Clone, Copy)]
struct PairWords<'a> {
    instance: &'a str,
    earlier: &'a str,
    receive: &'a str,
}

/// The words of a `race` line, which are the last three. The remaining words are the files.
fn pair_words<'a>(words: &mut Vec<&'a str>) -> Option<PairWords<'a>> {
    let receive = words.pop()?;
    let earlier = words.pop()?;
    let instance = words.pop()?;
    Some(PairWords {
        instance,
        earlier,
        receive,
    })
}

/// A question about races, and its files.
#[derive(Drop)]
struct Asked<'a> {
    asked: RaceQuestion<'a>,
    files: Vec<&'a str>,
}

/// The question of a command about one race, of this file.
fn race_asked<'a>(
    command: &str,
    words: &ArgMatches<'a>,
    file: &'a str,
    pair: PairWords<'a>,
) -> RaceQuestion<'a> {
    let PairWords {
        instance,
        earlier,
        receive,
    } = pair;
    match question_of(command) {
        Some(question) => RaceQuestion::Pair(Pair {
            question,
            strict: words.get_flag("strict"),
            file,
            instance,
            earlier,
            receive,
        }),
        None => RaceQuestion::Mend(Mend::One {
            name: words.get_str("name"),
            verbose: words.get_flag("verbose"),
            file,
            instance,
            earlier,
            receive,
        }),
    }
}

/// The question of `mend --all`. Neither a name nor `--verbose` is allowed with it.
fn all_asked<'a>(words: &ArgMatches<'a>, file: Option<&'a str>) -> Option<RaceQuestion<'a>> {
    if words.get_str("name").is_some() || words.get_flag("verbose") {
        return None;
    }
    Some(RaceQuestion::Mend(Mend::All {
        receives: words.get_flag("receives"),
        run_to_completion: words.get_flag("run-to-completion"),
        limit: words.get_str("limit"),
        file,
    }))
}

/// Whether an option is given that is only allowed with `--all`.
fn limits_all(words: &ArgMatches<'_>) -> bool {
    words.get_str("limit").is_some()
        || words.get_flag("receives")
        || words.get_flag("run-to-completion")
        || words.get_flag("luck")
}

/// The question of `why`, `witness` or `mend`. With `--all` all words are files.
fn asked_of<'a>(
    alloc: Global,
    command: &str,
    words: &ArgMatches<'a>,
) -> Result<Asked<'a>, CommandLineError> {
    let mut files = words_of(alloc, words, "WORD")?;
    if words.get_flag("all") {
        let file = files.first().copied();
        let asked = all_asked(words, file).ok_or(CommandLineError::Usage)?;
        return Ok(Asked { asked, files });
    }
    if limits_all(words) {
        return Err(CommandLineError::Usage);
    }
    let pair = pair_words(&mut files).ok_or(CommandLineError::Usage)?;
    let file = files.first().copied().unwrap_or("-");
    let asked = race_asked(command, words, file, pair);
    Ok(Asked { asked, files })
}

/// Whether a command without `--from` may ask this question. A question about one race needs a file, and `--strict` is
/// only allowed with `why`.
fn may_ask(asked: &Asked<'_>, strict: bool) -> bool {
    match asked.asked {
        RaceQuestion::Pair(pair) => {
            !asked.files.is_empty() && (!strict || pair.question == Question::Why)
        }
        RaceQuestion::Mend(Mend::One { .. }) => !asked.files.is_empty() && !strict,
        RaceQuestion::Mend(Mend::All { .. }) => !strict,
    }
}

/// The question about the races of a chart or of a schedule.
fn chart_question<'a>(asked: &Asked<'a>, strict: bool) -> Option<Request<'a>> {
    if !may_ask(asked, strict) {
        return None;
    }
    Some(match asked.asked {
        RaceQuestion::Pair(pair) => Request::Pair(pair),
        RaceQuestion::Mend(mend) => Request::Mend(mend),
    })
}

/// The question about the races of one file, which may be another tool's text.
fn file_question<'a>(
    alloc: Global,
    asked: &Asked<'a>,
    words: &ArgMatches<'a>,
) -> Result<Request<'a>, CommandLineError> {
    let file = one_file(&asked.files, words)?;
    match other_reading(alloc, words)? {
        Some(reading) => Ok(Request::ToolQuestion(ToolQuestion {
            asked: asked.asked,
            import: Import { reading, file },
        })),
        None => chart_question(asked, words.get_flag("strict")).ok_or(CommandLineError::Usage),
    }
}

/// The question about the races of a log, or with `--luck` about those of them that were luck.
fn log_question<'a>(
    words: &ArgMatches<'a>,
    asked: RaceQuestion<'a>,
    log: ImportLog<'a>,
) -> Request<'a> {
    if words.get_flag("luck") {
        return Request::MendLuck(MendLuck {
            receives: words.get_flag("receives"),
            run_to_completion: words.get_flag("run-to-completion"),
            limit: words.get_str("limit"),
            log,
        });
    }
    Request::LogQuestion(LogQuestion { asked, log })
}

/// The request of `why`, `witness` or `mend`. Only a log shows luck.
pub(crate) fn race_question<'a>(
    alloc: Global,
    command: &str,
    words: &ArgMatches<'a>,
) -> Result<Request<'a>, CommandLineError> {
    let asked = asked_of(alloc, command, words)?;
    match log_form(words) {
        Some(form) => {
            let Asked { asked, files } = asked;
            let log = log_of(alloc, form, words, files)?;
            Ok(log_question(words, asked, log))
        }
        None if words.get_flag("luck") => Err(CommandLineError::Usage),
        None => file_question(alloc, &asked, words),
    }
}
