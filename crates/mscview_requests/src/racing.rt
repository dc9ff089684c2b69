//! Races by name.
ghost use Rattle.std.specs.Prelude.{◌≡◌, option_map};
ghost use Rattle.mscview_requests.specs.Effects.{DoesRaces, DoesStrictly, ViewsRaces, ViewsFileRaces};
ghost use Rattle.mscview_requests.specs.Wanted.{races_form, AreRaces};

use crate::giving::{Giver, first_in};
use crate::importing::view_races_of;
use cli::view::{Races, Showing};
use cmd_base::{ProgramError, refused_strictly};
use cmd_races::schedules::lucky_races;
use cmd_races::{Wanted, races};
use races_text::named::Form;
use std::alloc::Global;
use texts::Out;

fn form_of(json: bool) -> Form
    ensures { result ≡ races_form json }
{
    if json { Form::Json } else { Form::Plain }
}

/// The races to show, and their form.
pub(crate) fn wanted_by<'a>(showing: &Showing<'a>) -> Wanted<'a>
    ensures { AreRaces showing.now result }
{
    Wanted {
        only: showing.only.map(|names| names.as_bytes()),
        receives: showing.receives,
        run_to_completion: showing.run_to_completion,
        form: form_of(showing.json),
    }
}

/// Shows the races of a chart or of a schedule. If the words ask for luck, it shows only those of a schedule by `any`.
/// G1: the words ask for the luck of a chart's races, which its text doesn't show.
fn answer_races<W: Out, V: Out>(
    alloc: Global,
    luck: bool,
    bytes: &[u8],
    wanted: &Wanted<'_>,
    out: &mut W,
    err: &mut V,
) -> u8
    ensures { DoesRaces W.sink out.old out.new V.sink err.old err.new luck wanted.now bytes.now result }
{
    if luck {
        lucky_races(alloc, bytes, wanted, out, err)
    } else {
        races(alloc, bytes, wanted, out, err)
    }
}

/// Shows the races of a chart or of a schedule, unless `--strict` refuses the file.
fn answer_strictly<W: Out, V: Out>(
    alloc: Global,
    asked: &Races<'_>,
    bytes: &[u8],
    wanted: &Wanted<'_>,
    out: &mut W,
    err: &mut V,
) -> u8
    ensures { DoesStrictly W.sink out.old out.new V.sink err.old err.new asked.now.strict
        (λ between. DoesRaces W.sink out.old out.new V.sink between err.new asked.now.showing.luck wanted.now) bytes.now
        result }
{
    match refused_strictly(alloc, asked.strict, bytes, err) {
        Some(status) => status,
        None => answer_races(alloc, asked.showing.luck, bytes, wanted, out, err),
    }
}

/// Shows the races of a chart or of a schedule.
fn view_file_races<G: Giver, W: Out, V: Out>(
    alloc: Global,
    asked: &Races<'_>,
    giver: &G,
    out: &mut W,
    err: &mut V,
) -> Result<u8, ProgramError>
    ensures { ViewsFileRaces (G.gives giver.now) W.sink out.old out.new V.sink err.old err.new asked.now result }
{
    let bytes = first_in(alloc, giver, asked.file)?;
    let wanted = wanted_by(&asked.showing);
    Ok(answer_strictly(alloc, asked, bytes.as_slice(), &wanted, out, err))
}

/// Shows the races of a file by name. The file may be another tool's text.
pub(crate) fn view_races<G: Giver, W: Out, V: Out>(
    alloc: Global,
    asked: &Races<'_>,
    giver: &G,
    out: &mut W,
    err: &mut V,
) -> Result<u8, ProgramError>
    ensures { ViewsRaces (G.gives giver.now) W.sink out.old out.new V.sink err.old err.new asked.now result }
{
    match &asked.reading {
        Some(reading) => view_races_of(alloc, asked, reading, giver, out, err),
        None => view_file_races(alloc, asked, giver, out, err),
    }
}
