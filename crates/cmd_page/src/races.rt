//! The races of a page.
ghost use Rattle.std.specs.Prelude.{◌≡◌, length, All, IfOk};
ghost use Rattle.chart.specs.Ranges.{IsRange};
ghost use Rattle.cmd_base.specs.Texts.{IsReadAs};
ghost use Rattle.texts.specs.Instances.{name_at};
ghost use Rattle.texts.specs.Writing.{Wrote, Adds};
ghost use Rattle.cmd_page.specs.Answers.Answering.{plus};
ghost use Rattle.cmd_page.specs.Marks.Pairing.{HasRange};
ghost use Rattle.cmd_page.specs.Races.{title_text, IsAnswered, HasAnswers, IsPageRace, AreRaces};

use crate::answers::{Subject, answers_of, name_bytes};
use crate::marks::{Marks, RaceRange, line_of, marks_of};
use crate::text::{Answers, Race};
use chart::{Event, Names};
use closure::Closure;
use cmd_base::Source;
use cmd_base::pairs::Asked;
use races_text::judged;
use races_text::judged::Part;
use races_text::named::{add_race, last_of};
use std::alloc::{AllocError, Global};
use texts::{MemoryOut, Out, TextBuffer, WriteError};

/// A file that was read: its bytes, and the source of its chart.
#[derive(Clone, Copy)]
pub(crate) struct ReadFile<'a> {
    pub bytes: &'a [u8],
    pub source: &'a Source<'a>,
}

/// Adds a race by the names of its messages, with its word if its verdict is known.
fn add_title<W: Out>(
    text: &mut TextBuffer<'_, W>,
    names: &Names,
    events: &[Event],
    race: &RaceRange,
) -> Result<(), WriteError>
    requires { IsRange race.now.earlier }
    ensures { Adds W.sink text.old text.new result (title_text names.now events.now race.now) }
{
    match race.verdict {
        None => add_race(text, names, events, &race.receive, &race.earlier),
        Some(verdict) => {
            let part = Part {
                range: race.earlier,
                verdict,
            };
            judged::add_race(text, names, events, &race.receive, &part)
        }
    }
}

#[tactic(auto, using(texts::proofs::Writes::joining))]
fn write_title<W: Out>(
    names: &Names,
    events: &[Event],
    race: &RaceRange,
    out: &mut W,
) -> Result<(), WriteError>
    requires { IsRange race.now.earlier }
    ensures { Wrote W.sink out.old out.new result (title_text names.now events.now race.now) }
{
    let mut text = TextBuffer::new(out);
    add_title(&mut text, names, events, race)?;
    text.finish()
}

/// A race by the names of its messages, as `mscview races` lists it.
fn title_of(
    alloc: Global,
    names: &Names,
    events: &[Event],
    race: &RaceRange,
) -> Result<Vec<u8>, AllocError>
    requires { IsRange race.now.earlier }
    ensures { IfOk result (λ bytes. bytes.items ≡ title_text names.now events.now race.now) }
{
    let mut out = MemoryOut::new(alloc);
    match write_title(names, events, race, &mut out) {
        Ok(()) => Ok(out.into_bytes()),
        Err(_) => Err(AllocError),
    }
}

/// The explanation of a race of an instance with this name.
fn named_answers<'a>(
    alloc: Global,
    file: ReadFile<'a>,
    names: &'a Names,
    events: &'a [Event],
    name: &'a [u8],
    race: &RaceRange,
    above: u64,
) -> Result<Answers, AllocError>
    requires read_as { IsReadAs file.bytes.now file.source.now }
    requires range { IsRange race.now.earlier }
    requires name { name.now ≡ name_at names.now race.now.receive.instance }
    ensures { IfOk result (IsAnswered file.entry.bytes.now names.now events.now race.now above) }
{
    let earlier = race.earlier.first.index;
    let receive = race.receive.index;
    let subject = Subject {
        bytes: file.bytes,
        source: file.source,
        names,
        instance: race.receive.instance,
        events,
        asked: Asked {
            instance: name,
            earlier: earlier as u64,
            receive: receive as u64,
        },
        earlier,
        last: last_of(&race.earlier),
        receive,
        above,
    };
    let answers = answers_of(alloc, &subject)?;
    Ok(answers)
}

/// The number of lines above the rows in the output of `why`.
fn above_rows(marks: &Marks) -> u64
    ensures { result ≡ plus (length marks.now.before.items) (length marks.now.also.items) }
{
    (marks.before.len() as u64).saturating_add(marks.also.len() as u64)
}

/// The explanation of a race.
fn full_answers(
    alloc: Global,
    file: ReadFile<'_>,
    names: &Names,
    events: &[Event],
    race: &RaceRange,
    above: u64,
) -> Result<Answers, AllocError>
    requires read_as { IsReadAs file.bytes.now file.source.now }
    requires range { IsRange race.now.earlier }
    ensures { IfOk result (IsAnswered file.entry.bytes.now names.now events.now race.now above) }
{
    let name = name_bytes(alloc, names, race.receive.instance)?;
    named_answers(alloc, file, names, events, name.as_slice(), race, above)
}

/// The explanation of a race, if it is described in full.
fn answers_if(
    alloc: Global,
    file: ReadFile<'_>,
    names: &Names,
    events: &[Event],
    race: &RaceRange,
    above: u64,
    is_explained: bool,
) -> Result<Option<Answers>, AllocError>
    requires read_as { IsReadAs file.bytes.now file.source.now }
    requires range { IsRange race.now.earlier }
    ensures { IfOk result (HasAnswers is_explained file.entry.bytes.now names.now events.now race.now above) }
{
    if is_explained {
        let answers = full_answers(alloc, file, names, events, race, above)?;
        Ok(Some(answers))
    } else {
        Ok(None)
    }
}

/// A race of a page.
fn race_of(
    alloc: Global,
    file: ReadFile<'_>,
    names: &Names,
    closure: &Closure<'_>,
    race: &RaceRange,
    is_explained: bool,
) -> Result<Race, AllocError>
    requires read_as { IsReadAs file.bytes.now file.source.now }
    requires range { IsRange race.now.earlier }
    ensures { IfOk result (IsPageRace is_explained file.entry.bytes.now (names.now, closure.now) race.now) }
{
    let events = line_of(closure, race.receive.instance);
    let marks = marks_of(alloc, closure, &race.receive)?;
    let line = title_of(alloc, names, events, race)?;
    let above = above_rows(&marks);
    let answers = answers_if(alloc, file, names, events, race, above, is_explained)?;
    let Marks { before, also } = marks;
    Ok(Race {
        receive: race.receive,
        first: race.earlier.first.index as u64,
        last: last_of(&race.earlier) as u64,
        before,
        also,
        line,
        answers,
    })
}

/// The races of a page. The first `explained` are described in full.
pub(crate) fn races_of(
    alloc: Global,
    file: ReadFile<'_>,
    names: &Names,
    closure: &Closure<'_>,
    pairs: &[RaceRange],
    explained: u64,
) -> Result<Vec<Race>, AllocError>
    requires read_as { IsReadAs file.bytes.now file.source.now }
    requires ranges { All HasRange pairs.now }
    ensures { IfOk result (λ races. AreRaces file.entry.bytes.now (names.now, closure.now) explained pairs.now races.items) }
{
    let mut races = Vec::new(alloc);
    for place in 0..pairs.len() {
        let race = race_of(
            alloc,
            file,
            names,
            closure,
            &pairs[place],
            (place as u64) < explained,
        )?;
        races.push(race)?;
    }
    Ok(races)
}
