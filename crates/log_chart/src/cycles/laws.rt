//! Laws of the receives that are freed.
ghost use Rattle.log_chart.specs.Cycles.HandingOver.{FreeingLaw};

/// Which receive is freed doesn't depend on the order between the lines of several hosts.
pub fn freeing_law()
    ensures { FreeingLaw }
{}
