//! Whole texts.
ghost use Rattle.std.specs.Prelude.{◌≡◌};
ghost use Rattle.diagram_mscgen.specs.Grammar.Faults.{Reads, msc_of};

use crate::grammar::fault::{MscgenError, fault_at};
use crate::grammar::lexer::tokens_of;
use crate::grammar::stop::Stop;
use crate::grammar::whole::{Msc, msc_in};
use std::alloc::Global;

/// The entities and arcs of a text, or its first fault.
#[tactic(auto, unfolding(crate::specs::Grammar::Faults::msc_of))]
pub fn read(alloc: Global, text: &[u8]) -> Result<Msc<'_>, MscgenError<'_>>
    ensures { Reads result (msc_of text.now) }
{
    let tokens = tokens_of(alloc, text)?;
    match msc_in(alloc, &tokens) {
        Ok(msc) => Ok(msc),
        Err(Stop::Memory) => Err(MscgenError::Memory),
        Err(Stop::At(stop)) => Err(MscgenError::Fault(fault_at(text, stop))),
    }
}
