//! Consequences of the definitions, as the contract of a function that does nothing.
ghost use Rattle.instances.specs.Laws.{GatheredLaw, RunLaw};

/// The result of gathering a whole board, and the result of a board's run, is a possible chart with exactly the reports
/// of its receives. An audit by the offline checker accepts nothing else, and refuses this only for lack of memory
/// (`closure::audit`).
pub fn accepted_law()
    ensures gathered { GatheredLaw }
    ensures run { RunLaw }
{}
