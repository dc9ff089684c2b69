//! Whole texts.
ghost use Rattle.diagrams.specs.Diagrams.{diagram_view};
ghost use Rattle.diagram_mscgen.specs.Grammar.Charts.{msc_view};
ghost use Rattle.diagram_mscgen.specs.Grammar.Faults.{fault_view};
ghost use Rattle.diagram_mscgen.specs.Reading.Reading.{fault_of, with_known, diagram_of, Reads};
ghost use Rattle.diagram_mscgen.specs.Reading.Entities.{known_of};
ghost use Rattle.std.specs.Prelude.{◌≡◌};

use crate::grammar::{Msc, MscgenError};
use crate::reading::arcs::rows_of;
use crate::reading::entities::{Known, known_of, place_of};
use crate::reading::error::{Fault, ReadError};
use diagrams::Diagram;
use std::alloc::Global;

/// The fault of a text.
fn fault_of(fault: &crate::grammar::Fault<'_>) -> Fault
    ensures { result ≡ fault_of (fault_view fault.now) }
{
    match fault.words {
        [] => Fault::Unfinished,
        [_, ..] => Fault::NotRead(place_of(fault.place)),
    }
}

/// The diagram of a chart.
fn diagram_in(alloc: Global, msc: &Msc<'_>) -> Result<Diagram, ReadError>
    ensures { Reads diagram_view result (with_known (msc_view msc.now) (known_of (msc_view msc.now).entities)) }
{
    let Known {
        words,
        participants,
        left_out,
    } = known_of(alloc, &msc.entities)?;
    if words.len() < 2 {
        return Err(ReadError::Fault(Fault::Instances));
    }
    let rows = rows_of(alloc, &words, left_out, &msc.arcs)?;
    Ok(Diagram {
        participants,
        items: rows.items,
        left_out: rows.left_out,
    })
}

/// The diagram of a text, which may begin with a byte order mark.
///
/// F35 if something can't be read, and F21 if the text ends too early. If the whole text is read, F8 comes first: there
/// are fewer than 2 participants, or more than a chart has instances. Then comes F23, for the first arc that names an
/// entity which doesn't exist.
#[tactic(auto, unfolding(crate::specs::Reading::Reading::diagram_of))]
pub fn read(alloc: Global, text: &[u8]) -> Result<Diagram, ReadError>
    ensures { Reads diagram_view result (diagram_of text.now) }
{
    match crate::grammar::read(alloc, text) {
        Ok(msc) => diagram_in(alloc, &msc),
        Err(MscgenError::Memory) => Err(ReadError::Memory),
        Err(MscgenError::Fault(fault)) => Err(ReadError::Fault(fault_of(&fault))),
    }
}
