//! Laws of the charts of logs.
ghost use Rattle.log_chart.specs.Charts.ChartOrder.{ChartOrderLaw};

/// In the chart of a log the event of a line is before that of another line only if the lines come in this order in the
/// log: along the lines of hosts, and by messages whose sends are logged. Invented sends add nothing to this order.
pub fn chart_order_law()
    ensures { ChartOrderLaw }
{}
