//! The laws of other runs with a chart's events and causes. Each is the contract of a function that does nothing.
ghost use Rattle.reordering.specs.OtherRuns.Laws.{OrderLaw, WitnessLaw, TurningLaw, ReportLaw, OneRunLaw};
ghost use Rattle.reordering.specs.OtherRuns.Laws.{SlotsOrderLaw, SlotsWitnessLaw, SlotsTurningLaw};

/// In each run of a chart's events, the events that are enforced before an event have come when it has.
pub fn order_law()
    ensures { OrderLaw }
{}

/// For each receive of a possible chart, some run of its events has a moment at which the receive has come. Of the
/// other events exactly those have come then that are enforced before it.
pub fn witness_law()
    ensures { WitnessLaw }
{}

/// For a possible chart: an event isn't enforced before a receive exactly if some run of the chart's events has the
/// receive before it. So a report lists exactly the earlier events of the line, outside of the receive's coregion, that
/// some run has after the receive. One run has all of them after it.
///
/// The two don't change places in every respect. If the earlier event is a send, the receive comes before it in that
/// run, and so has become one of its causes there.
pub fn real_races_law()
    ensures reordered { TurningLaw }
    ensures report { ReportLaw }
    ensures one_run { OneRunLaw }
{}

/// The same for lanes with k slots, and a chart that is possible with these. There the n-th receive of a lane also
/// comes before the send that is k further on. In each run with k slots, the events that this and the enforced order
/// put before the receive have come when it has. The receive overtakes any other event in one of these runs.
pub fn slots_law()
    ensures order { SlotsOrderLaw }
    ensures witness { SlotsWitnessLaw }
    ensures reordered { SlotsTurningLaw }
{}
