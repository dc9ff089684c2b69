//! The words of the options for logs.
ghost use Rattle.std.specs.Prelude.{◌≡◌, map, option_map, MatchResult};
ghost use Rattle.cmd_base.specs.declared.error.ProgramError.TheVariants.{Memory};
ghost use Rattle.cmd_import_log.specs.Options.{form_view, options_view};
ghost use Rattle.log_lines.specs.Names.Hosts.{peer_view};
ghost use Rattle.mscview_requests.specs.Readings.{log_words_view};
ghost use Rattle.mscview_requests.specs.Words.Words.{Says, Reads};
ghost use Rattle.mscview_requests.specs.Wanted.{form_of, IsLine, AreLines, IsLog};

use crate::asking::number_by;
use crate::words::{PeerWord, hosts_by, peer_words, peers_of};
use cli::view::{ImportLog, LogForm};
use cmd_base::ProgramError;
use cmd_import_log::{Form, Options};
use log_lines::LineRange;
use log_lines::names::Peer;
use std::alloc::{AllocError, Global};

/// How a log is read, by the words of a command line.
#[derive(Drop)]
pub(crate) struct LogWords<'a> {
    pub form: Form<'a>,
    pub range: LineRange,
    pub hosts: Vec<&'a [u8]>,
    pub peers: Vec<PeerWord<'a>>,
}

/// The form of the log's lines.
fn form_by<'a>(form: LogForm<'a>) -> Form<'a>
    ensures { form_view result ≡ form_of form.entry }
{
    match form {
        LogForm::Plain => Form::Plain,
        LogForm::Pattern(pattern) => Form::Pattern(pattern),
        LogForm::ShiViz => Form::ShiViz,
    }
}

/// The line number in a word, or the default without a word. G1: the word isn't a number, or is 0.
fn line_by(word: Option<&str>, default: u64) -> Result<u64, ProgramError>
    ensures { Says (IsLine default (option_map (λ w. w.now) word.entry)) result }
{
    match word {
        None => Ok(default),
        Some(word) => {
            let number = number_by(word)?;
            if number == 0 {
                return Err(ProgramError::Usage);
            }
            Ok(number)
        }
    }
}

/// The range of lines that are read. G1: a word isn't the number of a line, or the range is empty.
fn range_by(from: Option<&str>, to: Option<&str>) -> Result<LineRange, ProgramError>
    ensures { Says (AreLines (option_map (λ w. w.now) from.entry) (option_map (λ w. w.now) to.entry)) result }
{
    let first = line_by(from, LineRange::ALL.first)?;
    let last = line_by(to, LineRange::ALL.last)?;
    if first > last {
        return Err(ProgramError::Usage);
    }
    Ok(LineRange { first, last })
}

/// How a log is read. G1: a word isn't valid.
pub(crate) fn log_words<'a>(
    alloc: Global,
    log: &ImportLog<'a>,
) -> Result<LogWords<'a>, ProgramError>
    ensures { Reads result log_words_view (IsLog log.now) }
{
    Ok(LogWords {
        form: form_by(log.form),
        range: range_by(log.from_line, log.to_line)?,
        hosts: hosts_by(alloc, log.hosts)?,
        peers: peer_words(alloc, &log.peers)?,
    })
}

/// The hosts for which the log has other names.
pub(crate) fn peers_by<'a>(
    alloc: Global,
    words: &'a LogWords<'_>,
) -> Result<Vec<Peer<'a>>, ProgramError>
    ensures { MatchResult result (λ peers. map peer_view peers.items ≡ (log_words_view words.now).peers) (λ e. e ≡ Memory) }
{
    match peers_of(alloc, &words.peers) {
        Ok(peers) => Ok(peers),
        Err(AllocError) => Err(ProgramError::Memory),
    }
}

/// The options for reading a log.
pub(crate) fn options_of<'a>(words: &'a LogWords<'_>, peers: &'a [Peer<'a>]) -> Options<'a>
    requires { map peer_view peers.now ≡ (log_words_view words.now).peers }
    ensures { options_view result ≡ log_words_view words.now }
{
    Options {
        form: words.form,
        range: words.range,
        hosts: words.hosts.as_slice(),
        peers,
    }
}
