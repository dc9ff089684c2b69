//! The laws of schedules, of their texts and of their meaning. Each is a clause of a function that does nothing.
ghost use Rattle.schedule.specs.Meaning.{LegalLaw};
ghost use Rattle.schedule.specs.Reading.{FirstFaultLaw};
ghost use Rattle.schedule.specs.ScheduleText.{OneTextLaw};

/// The first faulty line of a text decides, whatever follows it, and no two plans have the same text.
pub fn text_law()
    ensures first_fault { FirstFaultLaw }
    ensures one_text { OneTextLaw }
{}

/// Whatever a schedule's commands are, their result is a legal history over lanes of its capacity.
pub fn meaning_law()
    ensures { LegalLaw }
{}
