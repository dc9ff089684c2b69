//! Consequences of the definitions, as contracts of functions that do nothing.
ghost use Rattle.c_board.specs.Laws.{OpenedLaw};

/// Posts that one call of [`crate::open`] made are never refused as posts of two boards.
pub fn opened_law()
    ensures { OpenedLaw }
{}
