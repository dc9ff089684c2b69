//! The laws.
ghost use Rattle.picture_laws.specs.Arrows.{ArrowLaw};
ghost use Rattle.picture_laws.specs.Marks.{MarkLaw, OnlyMarksLaw};
ghost use Rattle.picture_laws.specs.Witnesses.{WitnessLaw};

/// If both ends of a message are drawn, the picture has an arrow from the place of its send to that of its receive. The
/// label with the message's name and the mark of the send come directly after it.
pub fn arrow_law()
    ensures { ArrowLaw }
{}

/// Each event that is drawn has one mark in the picture's text, and its circle is at the event's place. No other event
/// has a mark.
pub fn mark_law()
    ensures { MarkLaw }
{}

/// A picture has as many marks as events of its chart that are drawn, so each mark is that of such an event.
pub fn only_marks_law()
    ensures { OnlyMarksLaw }
{}

/// In the picture of a chart beside its witness both events of the pair are drawn and marked, if their instance has a
/// column. So are the events of the same lanes and turns in the picture of the witness.
pub fn witness_law()
    ensures { WitnessLaw }
{}
