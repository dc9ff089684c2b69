//! The laws of recorders, as contracts of functions that do nothing. A recorder's clocks are what its sends know, and
//! its reports are those of its receives, in every chart that has its line.
ghost use Rattle.line_recorder.specs.Laws.{NewRecorderLaw, SendClockLaw, SendKnowledgeLaw, ReceiveKnowledgeLaw};
ghost use Rattle.line_recorder.specs.Laws.{ReceiveReportLaw, CarriedKnowledgeLaw, CarriedManyLaw, CarriedEntriesLaw};
ghost use Rattle.line_recorder.specs.Laws.{CarriedClockLaw, CarriedReportLaw};

/// A recorder knows of each other instance the greatest event heard on its line. This holds at first, after a send, and
/// after a receive of a message whose clock is what its send knows.
pub fn knowledge_law()
    ensures new { NewRecorderLaw }
    ensures send { SendKnowledgeLaw }
    ensures receive { ReceiveKnowledgeLaw }
{}

/// The clock that a send returns is what the send knows of each instance: its vector time (Fidge 1988, Mattern 1989).
pub fn clock_law()
    ensures { SendClockLaw }
{}

/// The report that a receive returns is the receive's report (after Alur, Holzmann, Peled 1996). It has the earlier
/// events of its line, outside of its coregion, that the lanes don't enforce before it.
pub fn report_law()
    ensures { ReceiveReportLaw }
{}

/// Along a legal history, an instance knows of each other instance the greatest event heard of it. Each message carries
/// a clock with an entry for each instance, and this clock is what the message's send knows. The report made from the
/// clock of the first waiting message is the report of its receive.
pub fn history_law()
    ensures knowledge { CarriedKnowledgeLaw }
    ensures many { CarriedManyLaw }
    ensures entries { CarriedEntriesLaw }
    ensures clock { CarriedClockLaw }
    ensures report { CarriedReportLaw }
{}
