//! The causes for which readers of tokens stop.
ghost use Rattle.std.specs.Prelude.{◌≡◌};
ghost use Rattle.diagram_mscgen.specs.declared.grammar.stop.Stop.TheVariants.{Memory};

use crate::grammar::token::Token;
use std::alloc::AllocFailed;

/// Why a reader of tokens stopped.
#[derive(Clone, Copy, Debug)]
pub(crate) enum Stop<'t, 'a> {
    /// A growth was refused.
    Memory,
    /// These tokens can't be here.
    At(&'t [Token<'a>]),
}

impl<'t, 'a, T: Drop> From<AllocFailed<T>> for Stop<'t, 'a> {
    ghost from_gives = { λ _ e. e ≡ Memory };

    fn from(_e: AllocFailed<T>) -> Stop<'t, 'a> {
        Stop::Memory
    }
}
