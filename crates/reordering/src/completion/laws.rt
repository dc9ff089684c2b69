//! The laws of the order if instances finish. Each is the contract of a function that does nothing.
ghost use Rattle.reordering.specs.Completion.Laws.{PartLaw, ClosedFormLaw, OwnLineLaw, OneNumberLaw, NoCycleLaw, OthersLaw};
ghost use Rattle.reordering.specs.Completion.Laws.{CompletedReportLaw, RunLaw, OwnRunLaw};

/// The enforced order is part of it.
pub fn part_law()
    ensures { PartLaw }
{}

/// For a possible chart: the order in its closed form, over all events and along a receive's own line. On this line
/// there is only one number of first events, and no event is before itself.
pub fn closed_form_law()
    ensures events { ClosedFormLaw }
    ensures line { OwnLineLaw }
    ensures number { OneNumberLaw }
    ensures acyclic { NoCycleLaw }
{}

/// The remaining races are among the chart's races.
pub fn others_law()
    ensures { OthersLaw }
{}

/// The remaining races are those of the chart's races that are later than the last send that is finished before the
/// receive.
pub fn completed_report_law()
    ensures { CompletedReportLaw }
{}

/// In each run of a chart's events in which instances finish, the events before an event have come when it has. A legal
/// history is such a run of its own chart's events, so each possible chart has one.
pub fn run_law()
    ensures order { RunLaw }
    ensures own { OwnRunLaw }
{}
