//! Laws of what is read of logs.
ghost use Rattle.cmd_import_log.specs.RecordedClocks.{ImportedClockLaw, RecordedClockLaw};
ghost use Rattle.cmd_import_log.specs.RecordedLuck.{RecordedLuckLaw};

/// The clocks of a log are vector time, and decide about all its events. If the chart then puts one event of the log
/// before another, the first one's clock is less, or both are of one event. This holds for the chart that is imported
/// from texts, and for that of their recording. With `--peer` no two words of the log may be words for one host.
pub fn recorded_clock_law()
    ensures imported { ImportedClockLaw }
    ensures recorded { RecordedClockLaw }
{}

/// If the verdict on a race of a log's recording is luck, some run of its chart's events has a certain moment. All
/// events above the earlier receive have come then, and the later message waits. The earlier receive would have taken
/// this message, and none of those that wait before it on its lane. This holds for each recording that is read of
/// texts, with no further condition.
pub fn recorded_luck_law()
    ensures { RecordedLuckLaw }
{}
