//! Laws of every run of all instances on a board, and of what their lanes carry, as contracts of functions that do
//! nothing.
ghost use Rattle.board_core.specs.Laws.{LegalLaw, LaneLaw, ClockLaw, ReportLaw, RecorderLaw, GoodsLaw, DifferencesLaw};
ghost use Rattle.board_core.specs.Laws.{RestoringLaw, KnowledgeLaw, RunRestoringLaw, GoodsGrowthLaw, OthersLaw};
ghost use Rattle.board_core.specs.Laws.{ClockGrowthLaw, ReportGrowthLaw, HistoryLaw};

/// Laws of every run, with any number of instances and lanes of any capacity, in any order of their steps. The sends,
/// receives and closes are a legal history, and each lane has passed on what this history states. The clock of each
/// published message is what its send knows in the history's chart (vector time, Fidge 1988, Mattern 1989). The reports
/// of an instance's receives are those of the receives of its line in this chart, in order. Each recorder has its
/// instance's line of the chart, what the instance knows, and these reports.
pub fn every_run()
    ensures legal { LegalLaw }
    ensures lanes { LaneLaw }
    ensures clocks { ClockLaw }
    ensures reports { ReportLaw }
    ensures recorders { RecorderLaw }
{}

/// A lane carries, by a history, the messages that were sent on it, each with the clock of its send.
pub fn goods_law()
    ensures { GoodsLaw }
{}

/// The differences on a lane, in every legal history. Each names what changed in a send's clock since the send before
/// it on the lane, or since zeros for the first send (Singhal and Kshemkalyani 1992). Such differences exist, each with
/// exactly the entries that differ, in rising order of instances. Applied in order from zeros, they give the sends'
/// clocks, and so the numbers that each send knows in the history's chart. For every run they give the clocks of the
/// published messages.
pub fn differences_law()
    ensures exist { DifferencesLaw }
    ensures restore { RestoringLaw }
    ensures know { KnowledgeLaw }
    ensures runs { RunRestoringLaw }
{}

/// What a later history leaves as it was. What a lane carries only grows. An instance's line, and the clock of its next
/// send, change only by its own events. A clock is still what its send knows, and a report is still that of its
/// receive.
pub fn growth_law()
    ensures goods { GoodsGrowthLaw }
    ensures others { OthersLaw }
    ensures clocks { ClockGrowthLaw }
    ensures reports { ReportGrowthLaw }
{}

/// Every legal history is that of some run: on a board at rest, the steps of each call that a history allows can be
/// made.
pub fn every_history()
    ensures { HistoryLaw }
{}
