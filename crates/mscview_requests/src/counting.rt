//! The number of files that a command line reads.
ghost use Rattle.std.specs.Prelude.{◌≡◌, length};
ghost use Rattle.mscview_requests.specs.FileCounts.{at_least_one, files_read};

use cli::view::{ImportLog, Request};

/// How many files a log has. If no file is named, standard input counts as one.
fn many_logs(log: &ImportLog<'_>) -> usize
    ensures { result ≡ at_least_one (length log.now.files.items) }
{
    log.files.len().max(1)
}

/// How many files a request reads. Standard input counts as one.
pub fn many_files(request: &Request<'_>) -> usize
    ensures { result ≡ files_read request.now }
{
    match request {
        Request::Compare(_) => 2,
        Request::ImportLog(log) | Request::LogPage(log) => many_logs(log),
        Request::LogRaces(asked) => many_logs(&asked.log),
        Request::LogQuestion(wanted) => many_logs(&wanted.log),
        Request::MendLuck(wanted) => many_logs(&wanted.log),
        Request::Pair(_)
        | Request::Draw(_)
        | Request::DrawWitness(_)
        | Request::Page(_)
        | Request::ToolPage(_)
        | Request::Export(_)
        | Request::Import(_)
        | Request::Races(_)
        | Request::Mend(_)
        | Request::ToolQuestion(_)
        | Request::Tidy(_)
        | Request::Explain(_) => 1,
    }
}
