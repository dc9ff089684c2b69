//! The laws of spellings, and of the names of labels.

ghost use Rattle.diagram_labels.specs.Laws.{SpelledIsName, NamesStay, CalledIsFresh, CalledIsName, CalledIsOne};
ghost use Rattle.diagram_labels.specs.Laws.{LabelsKeep, LabelsAreCalled, LabelsAreNamed, LabelsDiffer};

/// The spelling of any label is a name, and a label that is a name is its own spelling.
pub fn spelled_law()
    ensures name { SpelledIsName }
    ensures stays { NamesStay }
{}

/// The name of a new label is a valid name, no earlier label has it, and there is only one such name.
pub fn called_law()
    ensures fresh { CalledIsFresh }
    ensures name { CalledIsName }
    ensures one { CalledIsOne }
{}

/// A label keeps its name. A new label gets its name from its spelling, after the labels before it. Each of these is a
/// valid name, and different labels have different names.
pub fn labels_law()
    ensures keep { LabelsKeep }
    ensures called { LabelsAreCalled }
    ensures named { LabelsAreNamed }
    ensures differ { LabelsDiffer }
{}
