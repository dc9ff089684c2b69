//! The warnings about a chart that was made from a log.
ghost use Rattle.std.specs.Prelude.{◌≤◌, length, map, All};
ghost use Rattle.texts.specs.Writing.{Wrote, Adds};
ghost use Rattle.cmd_import_log.specs.Answers.Diagnostics.{unmatched_text, own_text, misspelled_text, captured_note, captured_text, timed_note, timed_text, one_ended_note, one_ended_text, taps_text, enforced_note, overtaking_note, left_out_note, unclaimed_note, invented_note};
ghost use Rattle.cmd_import_log.specs.Answers.Diagnostics.{counts_text, left_out_text, made_text, names_text, diagnostics_text};

use crate::answers::alike::{Alike, add_all_alike};
use crate::answers::diagnostic_lines::{
    add_all_freed, add_all_invented, add_all_lost, add_all_overtaking,
};
use crate::answers::events_read::add_read;
use crate::answers::overtaking::{Overtaking, add_overtakings};
use chart::{EventNo, Name, Names};
use diagram_labels::Renamed;
use diagram_labels::renamed::add_all_renamed;
use log_lines::{Others, Place};
use log_text::{add_others, add_others_of};
use texts::{Out, TextBuffer, WriteError};

/// The warnings about a chart that was made from a log.
#[derive(Debug, Drop)]
pub struct Diagnostics {
    /// The number of lines that were read.
    pub lines: u64,
    /// The number of events in them.
    pub events: u64,
    /// Hosts without a line of their own.
    pub lineless: Vec<Name>,
    /// Hosts with lines of their own.
    pub lined: Vec<Name>,
    /// Hosts without a line that may be other hosts.
    pub alike: Vec<Alike>,
    /// Lines that don't match.
    pub others: Option<Others>,
    /// Events of messages of a host to itself, which are skipped.
    pub own: Option<Others>,
    /// Receives with words that begin with `takes=` and are misspelled. These words are ignored.
    pub misspelled: Option<Others>,
    /// Whether messages were captured, so that only their order at the tap is known.
    pub is_captured: bool,
    /// Whether clocks imply messages.
    pub is_timed: bool,
    /// Whether the log has one end of each message. Then no race is claimed.
    pub is_one_ended: bool,
    /// Lines whose messages are lost.
    pub lost: Vec<Place>,
    pub overtaking: Vec<Overtaking>,
    /// Lines whose receives take no send of the log.
    pub freed: Vec<Place>,
    /// The names of the instances.
    pub names: Names,
    /// Invented sends.
    pub invented: Vec<EventNo>,
    /// Hosts and messages whose names differ from their words.
    pub hosts: Vec<Renamed>,
    pub messages: Vec<Renamed>,
}

/// Adds the number of lines that don't match.
#[tactic(auto, unfolding(crate::specs::Answers::Diagnostics::unmatched_text))]
fn add_unmatched<V: Out>(
    text: &mut TextBuffer<'_, V>,
    files: &[&[u8]],
    diagnostics: &Diagnostics,
) -> Result<(), WriteError>
    ensures { Adds V.sink text.old text.new result (unmatched_text (map (λ file. file.now) files.now) diagnostics.now) }
{
    add_others_of(
        text,
        files,
        diagnostics.lines,
        b"lines doesn't match",
        b"lines don't match",
        diagnostics.others,
    )
}

/// Adds the number of events of messages to oneself.
#[tactic(auto, unfolding(crate::specs::Answers::Diagnostics::own_text))]
fn add_own<V: Out>(
    text: &mut TextBuffer<'_, V>,
    files: &[&[u8]],
    diagnostics: &Diagnostics,
) -> Result<(), WriteError>
    ensures { Adds V.sink text.old text.new result (own_text (map (λ file. file.now) files.now) diagnostics.now) }
{
    add_others(
        text,
        files,
        b"event of a message to oneself is left out",
        b"events of messages to oneself are left out",
        diagnostics.own,
    )
}

/// Adds the number of receives with misspelled words `takes=`.
#[tactic(auto, unfolding(crate::specs::Answers::Diagnostics::misspelled_text))]
fn add_misspelled<V: Out>(
    text: &mut TextBuffer<'_, V>,
    files: &[&[u8]],
    diagnostics: &Diagnostics,
) -> Result<(), WriteError>
    ensures { Adds V.sink text.old text.new result (misspelled_text (map (λ file. file.now) files.now) diagnostics.now) }
{
    add_others(
        text,
        files,
        b"receive has a word takes= that isn't PEER:NAMES",
        b"receives have words takes= that aren't PEER:NAMES",
        diagnostics.misspelled,
    )
}

/// Adds that messages were captured.
#[tactic(auto, unfolding(crate::specs::Answers::Diagnostics::captured_note))]
fn add_captured_note<V: Out>(text: &mut TextBuffer<'_, V>) -> Result<(), WriteError>
    ensures { Adds V.sink text.old text.new result captured_note }
{
    text.add(b"only the order at the tap is known\n")
}

/// Adds that messages were captured, if they were.
fn add_captured<V: Out>(
    text: &mut TextBuffer<'_, V>,
    diagnostics: &Diagnostics,
) -> Result<(), WriteError>
    ensures { Adds V.sink text.old text.new result (captured_text diagnostics.now) }
{
    if diagnostics.is_captured {
        add_captured_note(text)
    } else {
        Ok(())
    }
}

/// Adds that clocks don't show all receives.
#[tactic(auto, unfolding(crate::specs::Answers::Diagnostics::timed_note))]
fn add_timed_note<V: Out>(text: &mut TextBuffer<'_, V>) -> Result<(), WriteError>
    ensures { Adds V.sink text.old text.new result timed_note }
{
    text.add(b"a receive at which no entry of the clock grew isn't seen\n")
}

/// Adds that clocks don't show all receives, if clocks imply messages.
fn add_timed<V: Out>(
    text: &mut TextBuffer<'_, V>,
    diagnostics: &Diagnostics,
) -> Result<(), WriteError>
    ensures { Adds V.sink text.old text.new result (timed_text diagnostics.now) }
{
    if diagnostics.is_timed {
        add_timed_note(text)
    } else {
        Ok(())
    }
}

/// Adds that the log has one end of each message.
#[tactic(auto, unfolding(crate::specs::Answers::Diagnostics::one_ended_note))]
pub(crate) fn add_one_ended_note<V: Out>(text: &mut TextBuffer<'_, V>) -> Result<(), WriteError>
    ensures { Adds V.sink text.old text.new result one_ended_note }
{
    text.add(b"no race is claimed: the log has one end of each message\n")
}

/// Adds that the log has one end of each message, if it has.
fn add_one_ended<V: Out>(
    text: &mut TextBuffer<'_, V>,
    diagnostics: &Diagnostics,
) -> Result<(), WriteError>
    ensures { Adds V.sink text.old text.new result (one_ended_text diagnostics.now) }
{
    if diagnostics.is_one_ended {
        add_one_ended_note(text)
    } else {
        Ok(())
    }
}

/// Adds what isn't known since messages were captured, clocks imply them, or the log has one end of each.
#[tactic(auto, using(texts::proofs::Writes::joining), unfolding(crate::specs::Answers::Diagnostics::taps_text))]
fn add_taps<V: Out>(
    text: &mut TextBuffer<'_, V>,
    diagnostics: &Diagnostics,
) -> Result<(), WriteError>
    ensures { Adds V.sink text.old text.new result (taps_text diagnostics.now) }
{
    add_captured(text, diagnostics)?;
    add_timed(text, diagnostics)?;
    add_one_ended(text, diagnostics)
}

/// Adds that races may be shown which a skipped message enforced.
#[tactic(auto, unfolding(crate::specs::Answers::Diagnostics::enforced_note))]
fn add_enforced_note<V: Out>(text: &mut TextBuffer<'_, V>) -> Result<(), WriteError>
    ensures { Adds V.sink text.old text.new result enforced_note }
{
    text.add(b"races may be shown that a message which is left out enforced\n")
}

/// Adds that races may be shown which a skipped message enforced, if messages overtake.
fn add_overtaking_note<V: Out>(
    text: &mut TextBuffer<'_, V>,
    overtaking: &[Overtaking],
) -> Result<(), WriteError>
    ensures { Adds V.sink text.old text.new result (overtaking_note overtaking.now) }
{
    if overtaking.is_empty() {
        Ok(())
    } else {
        add_enforced_note(text)
    }
}

/// Adds that races may be shown which a skipped message enforced, if messages are lost or overtake.
fn add_left_out_note<V: Out>(
    text: &mut TextBuffer<'_, V>,
    lost: &[Place],
    overtaking: &[Overtaking],
) -> Result<(), WriteError>
    ensures { Adds V.sink text.old text.new result (left_out_note lost.now overtaking.now) }
{
    if lost.is_empty() {
        add_overtaking_note(text, overtaking)
    } else {
        add_enforced_note(text)
    }
}

/// Adds which races aren't claimed because of an invented send.
#[tactic(auto, unfolding(crate::specs::Answers::Diagnostics::unclaimed_note))]
fn add_unclaimed_note<V: Out>(text: &mut TextBuffer<'_, V>) -> Result<(), WriteError>
    ensures { Adds V.sink text.old text.new result unclaimed_note }
{
    text.add(
        b"a race whose earlier event is invented, or whose receive comes behind an invented event, isn't claimed\n",
    )
}

/// Adds which races aren't claimed, if sends are invented.
fn add_invented_note<V: Out>(
    text: &mut TextBuffer<'_, V>,
    invented: &[EventNo],
) -> Result<(), WriteError>
    ensures { Adds V.sink text.old text.new result (invented_note invented.now) }
{
    if invented.is_empty() {
        Ok(())
    } else {
        add_unclaimed_note(text)
    }
}

/// Adds the warnings that count events, lines and receives, and those about hosts.
#[tactic(auto, using(texts::proofs::Writes::joining), unfolding(crate::specs::Answers::Diagnostics::counts_text))]
fn add_counts<V: Out>(
    text: &mut TextBuffer<'_, V>,
    files: &[&[u8]],
    diagnostics: &Diagnostics,
) -> Result<(), WriteError>
    ensures { Adds V.sink text.old text.new result (counts_text (map (λ file. file.now) files.now) diagnostics.now) }
{
    add_read(
        text,
        diagnostics.events,
        &diagnostics.names,
        &diagnostics.lineless,
    )?;
    add_all_alike(text, &diagnostics.alike)?;
    add_unmatched(text, files, diagnostics)?;
    add_own(text, files, diagnostics)?;
    add_misspelled(text, files, diagnostics)?;
    add_taps(text, diagnostics)
}

/// Adds the skipped messages.
#[tactic(auto, using(texts::proofs::Writes::joining), unfolding(crate::specs::Answers::Diagnostics::left_out_text))]
fn add_left_out<V: Out>(
    text: &mut TextBuffer<'_, V>,
    files: &[&[u8]],
    lost: &[Place],
    overtaking: &[Overtaking],
) -> Result<(), WriteError>
    ensures { Adds V.sink text.old text.new result (left_out_text (map (λ file. file.now) files.now) lost.now overtaking.now) }
{
    add_all_lost(text, files, lost)?;
    add_all_overtaking(text, files, overtaking)?;
    add_overtakings(text, overtaking.len() as u64)?;
    add_left_out_note(text, lost, overtaking)
}

/// Adds the freed receives and the invented sends.
#[tactic(auto, using(texts::proofs::Writes::joining), unfolding(crate::specs::Answers::Diagnostics::made_text))]
fn add_made<V: Out>(
    text: &mut TextBuffer<'_, V>,
    files: &[&[u8]],
    names: &Names,
    freed: &[Place],
    invented: &[EventNo],
) -> Result<(), WriteError>
    requires { All (λ e. e.instance ≤ length names.now) invented.now }
    ensures { Adds V.sink text.old text.new result (made_text (map (λ file. file.now) files.now) names.now freed.now invented.now) }
{
    add_all_freed(text, files, freed)?;
    add_all_invented(text, names, invented)?;
    add_invented_note(text, invented)
}

/// Adds the names that differ from the log's words.
#[tactic(auto, using(texts::proofs::Writes::joining), unfolding(crate::specs::Answers::Diagnostics::names_text))]
fn add_names<V: Out>(
    text: &mut TextBuffer<'_, V>,
    hosts: &[Renamed],
    messages: &[Renamed],
) -> Result<(), WriteError>
    ensures { Adds V.sink text.old text.new result (names_text hosts.now messages.now) }
{
    add_all_renamed(text, hosts)?;
    add_all_renamed(text, messages)
}

#[tactic(auto, using(texts::proofs::Writes::joining), unfolding(crate::specs::Answers::Diagnostics::diagnostics_text))]
pub(crate) fn add_diagnostics<V: Out>(
    text: &mut TextBuffer<'_, V>,
    files: &[&[u8]],
    diagnostics: &Diagnostics,
) -> Result<(), WriteError>
    requires { All (λ e. e.instance ≤ length diagnostics.now.names) diagnostics.now.invented.items }
    ensures { Adds V.sink text.old text.new result (diagnostics_text (map (λ file. file.now) files.now) diagnostics.now) }
{
    add_counts(text, files, diagnostics)?;
    add_left_out(text, files, &diagnostics.lost, &diagnostics.overtaking)?;
    add_made(
        text,
        files,
        &diagnostics.names,
        &diagnostics.freed,
        &diagnostics.invented,
    )?;
    add_names(text, &diagnostics.hosts, &diagnostics.messages)
}

/// Writes the warnings. `files` has the names of several files, and is empty for one.
#[tactic(auto, using(texts::proofs::Writes::joining))]
pub fn write_diagnostics<V: Out>(
    files: &[&[u8]],
    diagnostics: &Diagnostics,
    err: &mut V,
) -> Result<(), WriteError>
    requires { All (λ e. e.instance ≤ length diagnostics.now.names) diagnostics.now.invented.items }
    ensures { Wrote V.sink err.old err.new result (diagnostics_text (map (λ file. file.now) files.now) diagnostics.now) }
{
    let mut text = TextBuffer::new(err);
    add_diagnostics(&mut text, files, diagnostics)?;
    text.finish()
}
