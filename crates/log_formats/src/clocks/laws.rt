//! Laws of logs whose clocks are vector time.
ghost use Rattle.log_formats.specs.Clocks.ChartOrder.{ClockChartLaw};
ghost use Rattle.log_formats.specs.Clocks.ReadOrder.{ReadLaw};
ghost use Rattle.log_formats.specs.Clocks.VectorTime.{OrderLaw};

/// If clocks are vector time, an event comes before another one only if its clock is less. Events come before each
/// other along the lines of hosts, and by messages that follow from clocks.
pub fn order_law()
    ensures { OrderLaw }
{}

/// If clocks are vector time and decide about all events, a read event is before another one only if their clocks say
/// so. Read events are before each other along the lines of hosts, and by receives that take a send of their lane with
/// their id.
pub fn read_law()
    ensures { ReadLaw }
{}

/// In the chart of such a log an event of the log is before another one only if their clocks say so, whichever receives
/// are freed and whichever sends are invented.
pub fn clock_chart_law()
    ensures { ClockChartLaw }
{}
