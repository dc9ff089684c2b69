//! The law that the races reported to go are those that go. A function with no body proves it.
ghost use Rattle.cmd_mend.specs.Laws.{PlacesLaw};

/// Without the new receive's report the reports of the new chart are, one by one, those of the old chart's receives. So
/// each old report is looked up in the right one.
pub fn places_law()
    ensures { PlacesLaw }
{}
