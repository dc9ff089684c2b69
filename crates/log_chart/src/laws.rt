//! Laws of the lines of hosts.
ghost use Rattle.log_chart.specs.Laws.{LaneLaw};

/// Lanes are first in, first out: the n-th message that is received on a lane is the n-th one that is sent on it.
pub fn lane_law()
    ensures { LaneLaw }
{}
