//! Messages that remove races.
ghost use Rattle.std.specs.Prelude.{◌≡◌, option_map};
ghost use Rattle.mscview_requests.specs.Words.Words.{Says};
ghost use Rattle.mscview_requests.specs.Effects.{ViewsMend};
ghost use Rattle.mscview_requests.specs.Wanted.{IsMend, IsMendAll, IsLimit, detail_of};

use crate::asking::{asked_by, number_by};
use crate::giving::{Giver, first_in};
use cli::view::Mend;
use cmd_base::ProgramError;
use cmd_mend::{Detail, Wanted, WantedAll, mend, mend_all};
use shown_races::Showing;
use std::alloc::Global;
use texts::Out;

fn detail_of(verbose: bool) -> Detail
    ensures { result ≡ detail_of verbose }
{
    if verbose { Detail::Full } else { Detail::Brief }
}

/// The number of race pairs to try, if a word gives it. G1: the word isn't a number.
fn limit_by(word: Option<&str>) -> Result<Option<u64>, ProgramError>
    ensures { Says (IsLimit (option_map (λ w. w.now) word.entry)) result }
{
    match word {
        None => Ok(None),
        Some(word) => {
            let number = number_by(word)?;
            Ok(Some(number))
        }
    }
}

/// The races to remove, and the number of race pairs to try. G1: a word isn't a number.
pub(crate) fn all_wanted_by(
    receives: bool,
    run_to_completion: bool,
    limit: Option<&str>,
) -> Result<WantedAll, ProgramError>
    ensures { Says (IsMendAll receives run_to_completion (option_map (λ w. w.now) limit.entry)) result }
{
    let limit = limit_by(limit)?;
    Ok(WantedAll {
        showing: Showing {
            receives,
            run_to_completion,
        },
        limit,
    })
}

/// The race to remove, the name of the message that removes it, and the detail of the output. G1: a word isn't a
/// number.
pub(crate) fn wanted_by<'a>(
    name: Option<&'a str>,
    verbose: bool,
    instance: &'a str,
    earlier: &str,
    receive: &str,
) -> Result<Wanted<'a>, ProgramError>
    ensures { Says (IsMend (option_map (λ w. w.now) name.entry) verbose instance.now earlier.now receive.now) result }
{
    Ok(Wanted {
        asked: asked_by(instance, earlier, receive)?,
        name: name.map(|name| name.as_bytes()),
        detail: detail_of(verbose),
    })
}

/// Adds a message that removes a race of a file; or messages, as long as each reduces the number of races.
pub(crate) fn view_mend<G: Giver, W: Out, V: Out>(
    alloc: Global,
    wanted: &Mend<'_>,
    giver: &G,
    out: &mut W,
    err: &mut V,
) -> Result<u8, ProgramError>
    ensures { ViewsMend (G.gives giver.now) W.sink out.old out.new V.sink err.old err.new wanted.now result }
{
    match wanted {
        Mend::One {
            name,
            verbose,
            file,
            instance,
            earlier,
            receive,
        } => {
            let wanted = wanted_by(*name, *verbose, *instance, *earlier, *receive)?;
            let bytes = first_in(alloc, giver, Some(*file))?;
            Ok(mend(alloc, bytes.as_slice(), &wanted, out, err))
        }
        Mend::All {
            receives,
            run_to_completion,
            limit,
            file,
        } => {
            let wanted = all_wanted_by(*receives, *run_to_completion, *limit)?;
            let bytes = first_in(alloc, giver, *file)?;
            Ok(mend_all(alloc, bytes.as_slice(), &wanted, out, err))
        }
    }
}
