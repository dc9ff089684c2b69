//! Laws that follow from the definitions.
ghost use Rattle.schedule_threads.specs.Laws.{OneRunOutcomeLaw, TurnsLaw};

/// A run has one outcome, and no other.
pub fn one_run_outcome_law()
    ensures { OneRunOutcomeLaw }
{}

/// In a run of the script of a schedule's instance, each turn belongs to the command that gets its note.
pub fn turns_law()
    ensures { TurnsLaw }
{}
