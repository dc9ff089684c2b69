//! Draws a chart beside its witness.
ghost use Rattle.std.specs.Prelude.{◌≡◌};
ghost use Rattle.mscview_requests.specs.Words.Words.{Says};
ghost use Rattle.mscview_requests.specs.Effects.{ViewsWitnessPicture};
ghost use Rattle.mscview_requests.specs.Wanted.{IsBeside};

use crate::asking::asked_by;
use crate::drawing::title_of;
use crate::giving::{Giver, first_in};
use cli::view::DrawWitness;
use cmd_base::ProgramError;
use cmd_base::pairs::Asked;
use cmd_draw::witness::{Wanted, draw_witness};
use std::alloc::Global;
use texts::Out;

/// The two events and the options of the picture. G1: a word isn't a number.
fn beside_by<'a>(draw: &DrawWitness<'a>) -> Result<(Asked<'a>, Wanted<'a>), ProgramError>
    ensures { Says (IsBeside draw.now) result }
{
    let asked = asked_by(draw.instance, draw.earlier, draw.receive)?;
    let wanted = Wanted {
        title: title_of(draw.title, draw.file),
        only: draw.only.map(|names| names.as_bytes()),
        numbers: draw.numbers,
    };
    Ok((asked, wanted))
}

/// Draws a chart or a schedule beside its witness.
pub(crate) fn view_beside<G: Giver, W: Out, V: Out>(
    alloc: Global,
    draw: &DrawWitness<'_>,
    giver: &G,
    out: &mut W,
    err: &mut V,
) -> Result<u8, ProgramError>
    ensures { ViewsWitnessPicture (G.gives giver.now) W.sink out.old out.new V.sink err.old err.new draw.now result }
{
    let both = beside_by(draw)?;
    let bytes = first_in(alloc, giver, draw.file)?;
    Ok(draw_witness(alloc, bytes.as_slice(), &both.0, &both.1, out, err))
}
