//! Searches an expression in lines.
ghost use Rattle.std.specs.Prelude.{◌≡◌, ◌≤◌, None, length, option_map, IfOk};
ghost use Rattle.regex.specs.Bytes.{matcher_pattern, regex_pattern, regex_names};
ghost use Rattle.regex.specs.Locations.{location, location_count};
ghost use Rattle.regex.specs.Patterns.{find};
ghost use Rattle.log_lines.specs.Events.{line_view};
ghost use Rattle.log_formats.specs.Patterns.Groups.{AreAmong};
ghost use Rattle.log_formats.specs.Patterns.Found.{located, host_event_view};
ghost use Rattle.log_formats.specs.Patterns.Unread.{unread_view, unread_by, pattern_unread, unread_at};
ghost use Rattle.log_formats.specs.Patterns.PatternReading.{window_of, unmatched, alone, line_at, read_as, match_step, matched, event_in, event_matched, event_at, pattern_step, pattern_event};
ghost use Rattle.log_lines.specs.Reading.{all_lines};
ghost use Rattle.log_lines.specs.Windows.{step_view, step_at};

use crate::patterns::expression::Expression;
use crate::patterns::found::found_by;
use crate::patterns::groups::Groups;
use crate::patterns::host_event::{HostEvent, host_event};
use crate::patterns::unread::{Unread, unread_if_other};
use log_lines::{LineRange, LineSays, Step, is_within, window};
use regex::CaptureLocations;
use regex::bytes::Matcher;
use std::alloc::{AllocError, Global};
use texts::{behind_blanks, next_line};

/// A search by an expression.
#[derive(Drop)]
pub(crate) struct Search<'r> {
    matcher: Matcher<'r>,
    locations: CaptureLocations,
    groups: Groups,
    more: usize,
}

/// What the first line of a text gives, and what it gives of a host.
#[derive(Clone, Copy, Debug)]
pub(crate) struct Found<'a> {
    pub step: Step<'a>,
    pub event: Option<HostEvent<'a>>,
    /// Why the line isn't read, if a match begins in it and it counts as one that doesn't match.
    pub unread: Option<Unread<'a>>,
}

/// What a line gives that isn't read.
fn unmatched<'a>(line: &[u8]) -> LineSays<'a>
    ensures { line_view result ≡ unmatched line.now }
{
    if behind_blanks(line).is_empty() {
        LineSays::Nothing
    } else {
        LineSays::Other
    }
}

/// What the first line of a text gives if no match begins in it, or if its match isn't read.
fn alone<'a>(text: &[u8]) -> Step<'a>
    ensures { step_view result ≡ alone (window_of 0 (all_lines text.now)) }
{
    Step {
        says: unmatched(window(text, 0)),
        takes: 0,
    }
}

/// The line in which the byte at this place is, from 0. A line feed belongs to the line that it ends.
#[tactic(auto, unfolding(crate::specs::Patterns::PatternReading::line_at))]
fn line_at(window: &[u8], place: usize) -> usize
    requires { place ≤ length window.now }
    ensures { result ≡ line_at window.now place }
{
    let mut rest = &window[..place];
    let mut line = 0;
    'lines: while let Some((_, below)) = next_line(rest) {
        rest = below;
        line += 1;
    }
    line
}

/// What the first line of a text gives and takes, if its match gives this and touches this number of further lines.
fn read_as<'a>(says: LineSays<'a>, touched: usize, text: &[u8]) -> Step<'a>
    ensures { step_view result ≡ read_as (window_of 0 (all_lines text.now)) (line_view says.entry) touched }
{
    match says {
        LineSays::Other => alone(text),
        _ => Step {
            says,
            takes: touched,
        },
    }
}

/// What the first line of a text gives by a match that begins in it. The match ends at the place `end` of `window`.
fn match_step<'a>(
    locations: &CaptureLocations,
    groups: Groups,
    window: &'a [u8],
    end: usize,
    text: &[u8],
) -> Step<'a>
    requires { end ≤ length window.now }
    ensures { step_view result ≡ match_step groups window.now (window_of 0 (all_lines text.now)) (location locations.now) end }
{
    let says = found_by(locations, window, groups);
    let touched = line_at(window, end.saturating_sub(1));
    read_as(says, touched, text)
}

/// What a match gives of a host.
fn event_in<'a>(
    locations: &CaptureLocations,
    groups: Groups,
    window: &'a [u8],
) -> Option<HostEvent<'a>>
    ensures { option_map host_event_view result ≡ event_in groups (located window.now (location locations.now)) }
{
    match groups {
        Groups::Event(groups) => host_event(locations, window, groups),
        Groups::Capture(_) | Groups::Clock(_) => None,
    }
}

/// What the first line of a text gives if no match begins in it.
fn nothing_found<'a>(text: &[u8]) -> Found<'a>
    ensures step { step_view result.step ≡ alone (window_of 0 (all_lines text.now)) }
    ensures event { result.event ≡ None }
    ensures unread { result.unread ≡ None }
{
    Found {
        step: alone(text),
        event: None,
        unread: None,
    }
}

/// What the first line of a text gives by the expression, which is searched in `window`.
fn line_found<'a>(
    matcher: &mut Matcher<'_>,
    locations: &mut CaptureLocations,
    groups: Groups,
    window: &'a [u8],
    text: &[u8],
) -> Found<'a>
    requires { AreAmong (location_count locations.old) groups }
    ensures step { step_view result.step ≡ matched groups window.now (window_of 0 (all_lines text.now)) (find (matcher_pattern matcher.old) window.now 0) }
    ensures event { option_map host_event_view result.event ≡ event_matched groups window.now (find (matcher_pattern matcher.old) window.now 0) }
    ensures unread { option_map unread_view result.unread ≡ unread_by groups window.now (window_of 0 (all_lines text.now)) (find (matcher_pattern matcher.old) window.now 0) }
    ensures same { matcher_pattern matcher.new ≡ matcher_pattern matcher.old }
    ensures count { location_count locations.new ≡ location_count locations.old }
{
    match matcher.captures_read(locations, window) {
        None => nothing_found(text),
        Some(found) => {
            if line_at(window, found.start()) == 0 {
                let step = match_step(locations, groups, window, found.end(), text);
                Found {
                    step,
                    event: event_in(locations, groups, window),
                    unread: unread_if_other(locations, groups, window, step.says),
                }
            } else {
                nothing_found(text)
            }
        }
    }
}

impl<'r> Search<'r> {
    /// Makes a search. It fails only if there is no memory.
    pub(crate) fn new(alloc: Global, expression: &'r Expression) -> Result<Search<'r>, AllocError>
        requires { AreAmong (length (regex_names expression.now.regex)) expression.now.groups }
        ensures pattern { IfOk result (λ s. matcher_pattern s.matcher ≡ regex_pattern expression.now.regex) }
        ensures groups { IfOk result (λ s. s.groups ≡ expression.now.groups) }
        ensures more { IfOk result (λ s. s.more ≡ expression.now.more) }
        ensures among { IfOk result (λ s. AreAmong (location_count s.locations) s.groups) }
    {
        let matcher = expression.regex.matcher(alloc)?;
        let locations = expression.regex.capture_locations(alloc)?;
        Ok(Search {
            matcher,
            locations,
            groups: expression.groups,
            more: expression.more,
        })
    }

    /// What the first line of a text gives, together with the lines after it that its match touches.
    #[tactic(auto, unfolding(crate::specs::Patterns::PatternReading::pattern_step, crate::specs::Patterns::PatternReading::pattern_event, crate::specs::Patterns::Unread::pattern_unread))]
    pub(crate) fn found<'a>(&mut self, text: &'a [u8]) -> Found<'a>
        requires { AreAmong (location_count self.old.locations) self.old.groups }
        ensures step { step_view result.step ≡ pattern_step self.old.groups self.old.more (matcher_pattern self.old.matcher) (all_lines text.now) }
        ensures event { option_map host_event_view result.event ≡ pattern_event self.old.groups self.old.more (matcher_pattern self.old.matcher) (all_lines text.now) }
        ensures unread { option_map unread_view result.unread ≡ pattern_unread self.old.groups self.old.more (matcher_pattern self.old.matcher) (all_lines text.now) }
        ensures pattern { matcher_pattern self.new.matcher ≡ matcher_pattern self.old.matcher }
        ensures groups { self.new.groups ≡ self.old.groups }
        ensures more { self.new.more ≡ self.old.more }
        ensures among { AreAmong (location_count self.new.locations) self.new.groups }
    {
        let lines = window(text, self.more);
        line_found(
            &mut self.matcher,
            &mut self.locations,
            self.groups,
            lines,
            text,
        )
    }
}

/// What the line with this number gives, the first of the text. If `taken` isn't 0, it belongs to an earlier match, as
/// do the lines after it, `taken` in all.
pub(crate) fn found_at<'a>(
    search: &mut Search<'_>,
    range: LineRange,
    number: u64,
    taken: usize,
    text: &'a [u8],
) -> Found<'a>
    requires { AreAmong (location_count search.old.locations) search.old.groups }
    ensures step { step_view result.step ≡ step_at (pattern_step search.old.groups search.old.more (matcher_pattern search.old.matcher)) range number taken (all_lines text.now) }
    ensures event { option_map host_event_view result.event ≡ event_at (pattern_event search.old.groups search.old.more (matcher_pattern search.old.matcher)) range number taken (all_lines text.now) }
    ensures unread { option_map unread_view result.unread ≡ unread_at (pattern_unread search.old.groups search.old.more (matcher_pattern search.old.matcher)) range number taken (all_lines text.now) }
    ensures pattern { matcher_pattern search.new.matcher ≡ matcher_pattern search.old.matcher }
    ensures groups { search.new.groups ≡ search.old.groups }
    ensures more { search.new.more ≡ search.old.more }
    ensures among { AreAmong (location_count search.new.locations) search.new.groups }
{
    if taken > 0 {
        return Found {
            step: Step {
                says: LineSays::Nothing,
                takes: taken - 1,
            },
            event: None,
            unread: None,
        };
    }
    if !is_within(range, number) {
        return Found {
            step: Step {
                says: LineSays::Nothing,
                takes: 0,
            },
            event: None,
            unread: None,
        };
    }
    search.found(text)
}
