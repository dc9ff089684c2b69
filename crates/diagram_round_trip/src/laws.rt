//! The laws of charts that are exported and imported again.
ghost use Rattle.diagram_round_trip.specs.Laws.{MscgenRoundTrip, LevelAtOnce, SomeLevelExport};

/// The export of a level chart for mscgen is imported as the same chart.
pub fn mscgen_law()
    ensures { MscgenRoundTrip }
{}

/// A chart is drawn level if each of its messages is received before the next one is sent.
pub fn level_law()
    ensures { LevelAtOnce }
{}

/// There are exports to which [`mscgen_law`] applies.
pub fn level_export_law()
    ensures { SomeLevelExport }
{}
