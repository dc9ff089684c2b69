//! The meaning of luck for a log.
ghost use Rattle.race_verdicts.specs.Luck.Laws.{LuckLaw};

/// If the verdict on a log's race is luck, some run of its chart's events has a certain moment. All events above the
/// earlier receive have come then, and the later message waits. The earlier receive would have taken this message, and
/// none of those that wait before it on its lane.
pub fn luck_law()
    ensures { LuckLaw }
{}
