//! The laws.
ghost use Rattle.diagram_laws.specs.Imports.{ImportLaw};
ghost use Rattle.diagram_laws.specs.Turns.{DiagramTurnsLaw, HistoryTurnsLaw, ReplayTurnsLaw};
ghost use Rattle.diagram_laws.specs.VectorTime.{VectorTimeLaw};

/// The chart of a diagram has exactly the arrows that it keeps, on the lanes between their instances, in the order of
/// the text and with their names. Each kept arrow has one send, and one receive unless nobody receives it. No other
/// event is in the chart, which counts or reports what it lacks. The diagram's notes state no events.
pub fn import_law()
    ensures { ImportLaw }
{}

/// The turns of a legal history are those of a run of its chart: each event has one, and no receive has its turn before
/// that of its send.
pub fn history_turns_law()
    ensures { HistoryTurnsLaw }
{}

/// The turns of a diagram, whose lines may be joined, are those of a run of its chart.
pub fn diagram_turns_law()
    ensures { DiagramTurnsLaw }
{}

/// The turns of a schedule are those of a run of its outcome's chart, if no two of its commands are on one line.
pub fn replay_turns_law()
    ensures { ReplayTurnsLaw }
{}

/// The log of a chart's export has each drawn event with its vector time. The clock's entry for an instance is the
/// number of its events that are this event or happened before it, along lines and by messages as they are drawn.
pub fn vector_time_law()
    ensures { VectorTimeLaw }
{}
