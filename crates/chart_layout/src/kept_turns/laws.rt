//! A law that holds of the layout of every chart.
ghost use Rattle.chart_layout.specs.KeptTurns.Runs.{KeptTurnsLaw};

/// The rows of a layout have the events in the order of the turns, if these are those of a run of the chart.
pub fn kept_turns_law()
    ensures { KeptTurnsLaw }
{}
