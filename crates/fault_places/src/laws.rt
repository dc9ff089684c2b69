//! Laws of the places of faults and events, over the definitions of the texts. Each law is the contract of a function
//! that does nothing.
ghost use Rattle.fault_places.specs.Carets.{FormLaw, FormCaretLaw, CommandCaretLaw};
ghost use Rattle.fault_places.specs.ChartCarets.{ChartFormLaw, ChartFormCaretLaw, ChartNameCaretLaw};
ghost use Rattle.fault_places.specs.ChartCarets.{ChartEventCaretLaw, ChartInstanceCaretLaw, ChartPartnerCaretLaw};
ghost use Rattle.fault_places.specs.EventLines.{LineLaw};
ghost use Rattle.fault_places.specs.ScheduleCarets.{FirstLineCaretLaw, CapacityCaretLaw, ScheduleFaultLaw};

/// The number that [`crate::line_of_event`] finds for an event of a chart is that of the line with this event. The text
/// begins with the chart's text, and above the line it has exactly what the chart's text has before the event.
pub fn line_law()
    ensures { LineLaw }
{}

/// Which words may be in a line of a schedule, word by word, is what its readers accept. A line is refused for its form
/// (F20) exactly if a word may not be where it is, or is missing.
pub fn form_law()
    ensures { FormLaw }
{}

/// Which words may be in a line of a chart's text, word by word, is what its reader accepts in its state. A line is
/// refused for its form (F20) exactly if a word may not be where it is, or is missing.
pub fn chart_form_law()
    ensures { ChartFormLaw }
{}

/// The caret of a chart's line that is refused for its form (F20), in any text. The lines above it are read up to a
/// state, which allows what may be at its beginning. The words before the caret begin a line that isn't refused for its
/// form. No line that begins with these words and the word at the caret is such a line. Each word that may be there
/// begins one.
pub fn chart_form_caret_law()
    ensures { ChartFormCaretLaw }
{}

/// The caret of a chart's line with a word that is no name (F2 to F4). The words before the caret begin a line in which
/// the form and each name are right. No line that begins with these words and the word at the caret is such a line.
/// Each name that may be there begins one.
pub fn chart_name_caret_law()
    ensures { ChartNameCaretLaw }
{}

/// The caret of a chart's line that begins an instance with a name that was given before (F22), or one instance too
/// many, or that ends the chart with too few (F8). The words before the caret begin a line that passes the checks up to
/// that one. No line that begins with these words and the word at the caret passes them. Each word that may be there
/// begins a line that does.
pub fn chart_instance_caret_law()
    ensures { ChartInstanceCaretLaw }
{}

/// The caret of an event's line in a chart that names the instance itself as its partner (F13), or that is one event
/// too many (F7). The words before the caret begin a line that passes the checks up to that one, if any line does
/// there. No line that begins with these words and the word at the caret passes them. Each word that may be there
/// begins a line that does. For an event too many nothing is shown that may be there.
pub fn chart_event_caret_law()
    ensures { ChartEventCaretLaw }
{}

/// The caret of an event's line in a chart whose partner is no instance of the text (F23). The words before the caret
/// begin a line that is read. No line that begins with these words and the word at the caret is read. Each other
/// instance that may be there makes such a line.
pub fn chart_partner_caret_law()
    ensures { ChartPartnerCaretLaw }
{}

/// The caret of a schedule's line that is refused for its form (F20). The words before the caret begin a line that
/// isn't refused for its form. No line that begins with these words and the word at the caret is such a line. Each word
/// that may be there begins one.
pub fn form_caret_law()
    ensures { FormCaretLaw }
{}

/// The caret of a command that is refused for a name, an instance or a partner (F2 to F4, F23, F13). The words before
/// the caret begin a line that passes the checks up to that one. No line that begins with these words and the word at
/// the caret passes them. Each word that may be there begins a line that does.
pub fn command_caret_law()
    ensures { CommandCaretLaw }
{}

/// The caret of a schedule's first line with a word that is no name (F2 to F4), with a name that it has twice (F22), or
/// with too many instances or too few (F8). The words before the caret begin a line that passes the checks up to that
/// one. No line that begins with these words and the word at the caret passes them. Each name that may be there begins
/// a line that does.
pub fn first_line_caret_law()
    ensures { FirstLineCaretLaw }
{}

/// The caret of a schedule's second line with another number than 1 to 64 (F9). The words before the caret begin a line
/// that is read. No line that begins with these words and the word at the caret is read. Each number that may be there
/// makes such a line.
pub fn capacity_caret_law()
    ensures { CapacityCaretLaw }
{}

/// A schedule's text that is refused for a line is refused as the readers of its lines say: they find this fault in the
/// line with this number, by the names of the first line, and none in the lines above it.
pub fn schedule_fault_law()
    ensures { ScheduleFaultLaw }
{}
