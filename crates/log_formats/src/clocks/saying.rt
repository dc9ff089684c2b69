//! Reads events with vector time, by their words or by their clocks.
ghost use Rattle.std.specs.Prelude.{◌≡◌, List, length, map, option_map, IfOk, OnOk};
ghost use Rattle.log_lines.specs.Events.{clocked_view, event_view};
ghost use Rattle.log_lines.specs.Reading.{read_view};
ghost use Rattle.log_formats.specs.Clocks.Ends.{AreEnds};
ghost use Rattle.log_formats.specs.Clocks.Hearing.{HeardView, heard_view};
ghost use Rattle.log_formats.specs.Clocks.Messages.{HaveReasons};
ghost use Rattle.log_formats.specs.Clocks.Moments.{moment_view};
ghost use Rattle.log_formats.specs.Clocks.Saying.{clocked_at, sent_at, receive_of, send_of, with_receives, with_sends, with_worded, with_ends, with_all_moments, by_clocks, is_timed};
ghost use Rattle.log_formats.specs.declared.clocks.ends.End.TheVariants as ends;

use crate::clocks::ends::{End, ends_of};
use crate::clocks::heard::{Heard, all_heard};
use crate::clocks::moment::{Moment, any_by_clock, is_by_clock, moments_of};
use log_lines::{Act, Clocked, Event, LineSays, Read};
use std::alloc::{AllocError, Global};

/// What is read of a log with vector time.
#[derive(Debug, Drop)]
pub struct Timed<'a> {
    pub read: Read<'a>,
    /// Whether clocks decide about some event.
    pub is_timed: bool,
}

/// The event of a moment, or `own` if there is none.
fn clocked_at<'a>(own: Clocked<'a>, moment: Option<&Moment<'a>>) -> Clocked<'a>
    ensures { clocked_view result ≡ clocked_at (clocked_view own.entry) (option_map (λ m. moment_view m.now) moment.entry) }
{
    match moment {
        None => own,
        Some(moment) => moment.clocked,
    }
}

/// The event to which a heard entry refers, or `own` if the log lacks it.
fn sent_at<'a>(moments: &[Moment<'a>], own: Clocked<'a>, source: Option<usize>) -> Clocked<'a>
    ensures { clocked_view result ≡ sent_at (map moment_view moments.now) (clocked_view own.entry) source }
{
    match source {
        None => own,
        Some(place) => clocked_at(own, moments.get(place)),
    }
}

/// The receive for a heard entry. Its name is the text of the send, and its id the clock of the send. If the log lacks
/// the send, they are those of the receive's own event.
fn receive_of<'a>(moments: &[Moment<'a>], moment: &Moment<'a>, heard: &Heard<'a>) -> Event<'a>
    ensures { event_view result ≡ receive_of (map moment_view moments.now) (moment_view moment.now) (heard_view heard.now) }
{
    let sent = sent_at(moments, moment.clocked, heard.source);
    Event {
        host: moment.clocked.host,
        act: Act::Receive,
        peer: heard.stamp.host,
        name: sent.event,
        id: Some(sent.clock),
    }
}

/// The send for an entry that another host has heard.
fn send_of<'a>(moment: &Moment<'a>, heard: &Heard<'a>) -> Event<'a>
    ensures { event_view result ≡ send_of (moment_view moment.now) (heard_view heard.now) }
{
    Event {
        host: moment.clocked.host,
        act: Act::Send,
        peer: heard.host,
        name: moment.clocked.event,
        id: Some(moment.clocked.clock),
    }
}

/// Adds the receives for the entries that an event has heard.
fn add_receives<'a>(
    moments: &[Moment<'a>],
    moment: &Moment<'a>,
    received: &[Heard<'a>],
    read: &mut Read<'a>,
) -> Result<(), AllocError>
    ensures { OnOk result (read_view read.new
        ≡ with_receives (map moment_view moments.now) (moment_view moment.now) (map heard_view received.now) (read_view read.old)) }
{
    for heard in received {
        let event = receive_of(moments, moment, heard);
        read.add(moment.place, LineSays::Event(event))?;
    }
    Ok(())
}

/// Adds the sends for the entries by which hosts have heard of an event.
fn add_sends<'a>(
    moment: &Moment<'a>,
    sent: &[Heard<'a>],
    read: &mut Read<'a>,
) -> Result<(), AllocError>
    ensures { OnOk result (read_view read.new
        ≡ with_sends (moment_view moment.now) (map heard_view sent.now) (read_view read.old)) }
{
    for heard in sent {
        let event = send_of(moment, heard);
        read.add(moment.place, LineSays::Event(event))?;
    }
    Ok(())
}

/// Adds what an event's words give, or counts it as not read.
fn add_worded<'a>(moment: &Moment<'a>, read: &mut Read<'a>) -> Result<(), AllocError>
    ensures { OnOk result (read_view read.new ≡ with_worded (moment_view moment.now) (read_view read.old)) }
{
    if moment.worded.others.is_some() {
        return read.add(moment.place, LineSays::Other);
    }
    read.logged.extend_from_slice(&moment.worded.logged)?;
    Ok(())
}

/// Adds what an event gives. `received` and `sent` have the ends of messages there.
fn add_moment<'a>(
    moments: &[Moment<'a>],
    moment: &Moment<'a>,
    received: &[Heard<'a>],
    sent: &[Heard<'a>],
    read: &mut Read<'a>,
) -> Result<(), AllocError>
    ensures { OnOk result (read_view read.new
        ≡ with_ends (map moment_view moments.now) (moment_view moment.now) (map heard_view received.now) (map heard_view sent.now) (read_view read.old)) }
{
    if !is_by_clock(moment) {
        return add_worded(moment, read);
    }
    add_receives(moments, moment, received, read)?;
    add_sends(moment, sent, read)
}

/// Adds what the events give.
fn add_moments<'a>(
    moments: &[Moment<'a>],
    received: &[Vec<Heard<'a>>],
    sent: &[Vec<Heard<'a>>],
    read: &mut Read<'a>,
) -> Result<(), AllocError>
    requires received { length received.now ≡ length moments.now }
    requires sent { length sent.now ≡ length moments.now }
    ensures { OnOk result ((all : List HeardView)
        → AreEnds ends.Receive (length moments.now) all (map (λ list. map heard_view list.items) received.now)
        → AreEnds ends.Send (length moments.now) all (map (λ list. map heard_view list.items) sent.now)
        → read_view read.new ≡ with_all_moments (map moment_view moments.now) all 0 (map moment_view moments.now) (read_view read.old)) }
{
    for (at, moment) in moments.iter().enumerate() {
        let got = received[at].as_slice();
        let given = sent[at].as_slice();
        add_moment(moments, moment, got, given, read)?;
    }
    Ok(())
}

/// Reads a log's events with vector time: by the words `out M to B` and `in M from A`, or by their clocks. An event
/// that has no such words, and whose clock doesn't give its number, counts as not read. It takes time in proportion to
/// the number of events, if few entries of a clock grow at once. It fails only if there is no memory.
#[tactic(auto, unfolding(crate::specs::Clocks::Saying::by_clocks, crate::specs::Clocks::Saying::is_timed))]
pub fn by_clocks<'a>(alloc: Global, read: Read<'a>) -> Result<Timed<'a>, AllocError>
    ensures read { IfOk result (λ timed. read_view timed.read ≡ by_clocks (read_view read.entry)) }
    ensures timed { IfOk result (λ timed. timed.is_timed ≡ is_timed (read_view read.entry)) }
    ensures reasons { IfOk result (λ timed. HaveReasons (read_view read.entry) (read_view timed.read)) }
{
    let Read {
        logged,
        clocked,
        others,
    } = read;
    let moments = moments_of(alloc, &clocked)?;
    let all = all_heard(alloc, &moments)?;
    let mut joined = Read {
        logged,
        clocked: Vec::new(alloc),
        others,
    };
    let received = ends_of(alloc, End::Receive, moments.len(), &all)?;
    let sent = ends_of(alloc, End::Send, moments.len(), &all)?;
    add_moments(&moments, &received, &sent, &mut joined)?;
    Ok(Timed {
        read: joined,
        is_timed: any_by_clock(&moments),
    })
}
