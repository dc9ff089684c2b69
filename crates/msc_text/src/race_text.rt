//! The races of a chart as text.
ghost use Rattle.std.specs.Prelude.{◌≡◌, ◌≤◌, ◌<◌, ◌+◌, ◌/◌, length, decimal, All};
ghost use Rattle.std.specs.List.{flat_map};
ghost use Rattle.chart.specs.Ranges.{IsRange, events_of, events_in};
ghost use Rattle.msc_text.specs.RaceText.{race_front, race_end, race_line, report_text, races_text, AreNamed};
ghost use Rattle.msc_text.specs.MadeLines.{IsMade};
ghost use Rattle.texts.specs.Writing.{Adds};
ghost use Rattle.texts.specs.declared.held.TheConstants.{BUFFERED};
ghost use Rattle.msc_text.specs.declared.race_text.TheConstants.{MOST_ENDS};

use chart::{EventNo, EventRange, Name, Names, Report};
use itoa::Buffer;
use texts::{Held, Out, TextBuffer, WriteError, named};

/// The most bytes around the number of an earlier event. Before the number are a word with a space, and a name with a
/// space. After it are a space, a number and the line feed.
const MOST_ENDS: usize = 80;

/// What `MadeLine::tens` holds before a line is made. No event's number has these tens.
const NO_TENS: u32 = u32::MAX;

/// A race line that is kept. The lines of events whose numbers differ only in the last digit differ only in that digit,
/// so one kept line serves them all.
#[derive(Drop)]
struct MadeLine {
    line: Held,
    /// The number of its earlier event without the last digit, or `NO_TENS` if no line is made yet.
    tens: u32,
    /// The index of the last digit in the line, from 0.
    place: usize,
}

/// What all race lines of a receive have in common.
#[derive(Drop)]
struct LineEnds {
    /// The bytes before the number of the earlier event.
    front: Held,
    /// The bytes after it.
    end: Held,
}

impl LineEnds {
    /// Sets both parts for the races of the instance with this name, and of its receive with this number.
    #[tactic(auto, unfolding(crate::specs::RaceText::race_front, crate::specs::RaceText::race_end))]
    fn set(&mut self, name: Name, receive: u32)
        ensures front { self.new.front ≡ race_front name }
        ensures end { self.new.end ≡ race_end receive }
        ensures short { length self.new.front + length self.new.end ≤ MOST_ENDS }
    {
        self.front.clear();
        self.front.push(b"race ");
        self.front.push(name.as_bytes());
        self.front.push(b" ");
        let mut digits = Buffer::new();
        self.end.clear();
        self.end.push(b" ");
        self.end.push(digits.format(receive).as_bytes());
        self.end.push(b"\n");
    }

    /// Makes the line with the number of this earlier event.
    #[tactic(auto, unfolding(crate::specs::RaceText::race_line))]
    fn make(&self, made: &mut MadeLine, earlier: EventNo)
        requires { length self.now.front + length self.now.end ≤ MOST_ENDS }
        ensures line { made.new.line ≡ race_line self.now.front self.now.end earlier }
        ensures tens { made.new.tens ≡ earlier.index / 10 }
        ensures place { made.new.place + 1 ≡ length self.now.front + length (decimal earlier.index) }
        ensures within { made.new.place < length made.new.line }
        ensures short { length made.new.line ≤ BUFFERED }
    {
        let mut digits = Buffer::new();
        let index = digits.format(earlier.index).as_bytes();
        let front = self.front.as_bytes();
        made.line.clear();
        made.line.push(front);
        made.line.push(index);
        made.line.push(self.end.as_bytes());
        made.tens = earlier.index / 10;
        made.place = front.len() + index.len() - 1;
    }

    /// Adds the line with the number of this earlier event. Mostly the kept line is added, with another last digit.
    #[inline(always)]
    fn add<W: Out>(
        &self,
        text: &mut TextBuffer<'_, W>,
        made: &mut MadeLine,
        earlier: EventNo,
    ) -> Result<(), WriteError>
        requires short { length self.now.front + length self.now.end ≤ MOST_ENDS }
        requires made { IsMade self.now.front self.now.end made.old }
        ensures text { Adds W.sink text.old text.new result (race_line self.now.front self.now.end earlier) }
        ensures made { IsMade self.now.front self.now.end made.new }
    {
        let digit = b'0' + (earlier.index % 10) as u8;
        if made.tens != earlier.index / 10 {
            self.make(made, earlier);
        }
        text.add_with(made.line.as_bytes(), made.place, digit)
    }

    /// Adds the line of each event of a range.
    fn add_range<W: Out>(
        &self,
        text: &mut TextBuffer<'_, W>,
        made: &mut MadeLine,
        earlier: &EventRange,
    ) -> Result<(), WriteError>
        requires range { IsRange earlier.now }
        requires short { length self.now.front + length self.now.end ≤ MOST_ENDS }
        requires made { IsMade self.now.front self.now.end made.old }
        ensures text { Adds W.sink text.old text.new result
            (flat_map (race_line self.now.front self.now.end) (events_of earlier.now)) }
        ensures made { IsMade self.now.front self.now.end made.new }
    {
        for number in 0..earlier.count {
            self.add(text, made, earlier.event(number))?;
        }
        Ok(())
    }

    /// Adds the line of each event of these ranges.
    fn add_all<W: Out>(
        &self,
        text: &mut TextBuffer<'_, W>,
        made: &mut MadeLine,
        earlier: &[EventRange],
    ) -> Result<(), WriteError>
        requires ranges { All IsRange earlier.now }
        requires short { length self.now.front + length self.now.end ≤ MOST_ENDS }
        requires made { IsMade self.now.front self.now.end made.old }
        ensures { Adds W.sink text.old text.new result
            (flat_map (race_line self.now.front self.now.end) (events_in earlier.now)) }
    {
        for range in earlier {
            self.add_range(text, made, range)?;
        }
        Ok(())
    }
}

/// Writes race lines. The parts that all lines of a receive have in common are made once for each receive. One value
/// serves many receives.
#[derive(Drop)]
pub struct RaceLines {
    ends: LineEnds,
    made: MadeLine,
}

impl RaceLines {
    /// Makes a value that holds no line yet. It takes no memory.
    pub fn new() -> RaceLines {
        RaceLines {
            ends: LineEnds {
                front: Held::new(),
                end: Held::new(),
            },
            made: MadeLine {
                line: Held::new(),
                tens: NO_TENS,
                place: 0,
            },
        }
    }

    /// Adds a line for each race of a receive: for each event of these ranges. The instance of the receive has a name.
    /// It takes no memory.
    pub fn add_report<W: Out>(
        &mut self,
        text: &mut TextBuffer<'_, W>,
        names: &Names,
        receive: EventNo,
        earlier: &[EventRange],
    ) -> Result<(), WriteError>
        requires named { receive.instance ≤ length names.now }
        requires ranges { All IsRange earlier.now }
        ensures { Adds W.sink text.old text.new result
            (report_text names.now (record { receive = receive; earlier = events_in earlier.now })) }
    {
        self.ends.set(named(names, receive.instance), receive.index);
        self.made.tens = NO_TENS;
        self.ends.add_all(text, &mut self.made, earlier)
    }
}

/// Adds a line for each race of these reports to a text that is being written. The instances of the reports have names.
/// It takes no memory.
pub fn add_races<W: Out>(
    text: &mut TextBuffer<'_, W>,
    names: &Names,
    reports: &[Report],
) -> Result<(), WriteError>
    requires { AreNamed names.now reports.now }
    ensures { Adds W.sink text.old text.new result (races_text names.now reports.now) }
{
    let mut lines = RaceLines::new();
    for report in reports {
        lines.add_report(text, names, report.receive(), report.earlier().as_slice())?;
    }
    Ok(())
}
