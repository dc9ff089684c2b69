//! Runs the command of a request.
ghost use Rattle.mscview_requests.specs.Effects.{Comes, Views, ViewsSome, stream};

use crate::asking::{view_comparison, view_pair};
use crate::beside::view_beside;
use crate::drawing::{view_export, view_picture};
use crate::giving::Giver;
use crate::importing::{view_import, view_tool_page, view_tool_question};
use crate::mends::view_mend;
use crate::racing::view_races;
use crate::recorded::{view_log, view_log_page, view_log_question, view_log_races, view_mend_luck};
use crate::refusing::refusal;
use crate::writing::{view_explanation, view_page, view_tidy};
use cli::view::{Request, requested};
use cmd_base::{ProgramError, refused};
use std::alloc::Global;
use std::convert::AsStr;
use texts::Out;

/// Does what the request asks for, and returns the exit status.
fn come<G: Giver, W: Out, V: Out>(
    alloc: Global,
    request: &Request<'_>,
    giver: &G,
    out: &mut W,
    err: &mut V,
) -> Result<u8, ProgramError>
    ensures { Comes (G.gives giver.now) W.sink out.old out.new V.sink err.old err.new request.now result }
{
    match request {
        Request::Pair(pair) => view_pair(alloc, pair, giver, out, err),
        Request::Draw(picture) => view_picture(alloc, picture, giver, out, err),
        Request::DrawWitness(wanted) => view_beside(alloc, wanted, giver, out, err),
        Request::Page(page) => view_page(alloc, page, giver, out, err),
        Request::ToolPage(wanted) => view_tool_page(alloc, wanted, giver, out, err),
        Request::LogPage(wanted) => view_log_page(alloc, wanted, giver, out, err),
        Request::Export(exported) => view_export(alloc, exported, giver, out, err),
        Request::Import(imported) => view_import(alloc, imported, giver, out, err),
        Request::ImportLog(imported) => view_log(alloc, imported, giver, out, err),
        Request::Compare(wanted) => view_comparison(alloc, wanted, giver, out, err),
        Request::Races(asked) => view_races(alloc, asked, giver, out, err),
        Request::LogRaces(asked) => view_log_races(alloc, asked, giver, out, err),
        Request::Mend(wanted) => view_mend(alloc, wanted, giver, out, err),
        Request::ToolQuestion(wanted) => view_tool_question(alloc, wanted, giver, out, err),
        Request::LogQuestion(wanted) => view_log_question(alloc, wanted, giver, out, err),
        Request::MendLuck(wanted) => view_mend_luck(alloc, wanted, giver, out, err),
        Request::Tidy(file) => view_tidy(alloc, *file, giver, out, err),
        Request::Explain(file) => view_explanation(alloc, *file, giver, out, err),
    }
}

/// Does what a request asks for, with the files that the giver provides. Returns the exit status: that of the command,
/// or 2 if a word (G1) or a file is refused. Such a refusal writes nothing to `out`, and its line to `err`. A failed
/// write to `err` changes nothing.
pub fn view_request<G: Giver, W: Out, V: Out>(
    alloc: Global,
    request: &Request<'_>,
    giver: &G,
    out: &mut W,
    err: &mut V,
) -> u8
    ensures { Views (G.gives giver.now) (stream W.sink out.old out.new) (stream V.sink err.old err.new) request.now
        result }
{
    match come(alloc, request, giver, out, err) {
        Ok(status) => status,
        Err(error) => refused(&error, err),
    }
}

/// Does what the words of a command line ask for, as [`view_request`] does. The first word is the program's name. G1:
/// the words form no request. F6: memory ran out while they were read.
pub fn view<S: AsStr, G: Giver, W: Out, V: Out>(
    alloc: Global,
    words: &[S],
    giver: &G,
    out: &mut W,
    err: &mut V,
) -> u8
    ensures { ViewsSome (G.gives giver.now) (stream W.sink out.old out.new) (stream V.sink err.old err.new) result }
{
    match requested(alloc, words) {
        Ok(request) => view_request(alloc, &request, giver, out, err),
        Err(error) => refused(&refusal(error), err),
    }
}
