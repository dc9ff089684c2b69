//! What may be at a place of a line.
ghost use Rattle.std.specs.Prelude.{◌≡◌, bytes_eq};
ghost use Rattle.fault_places.specs.Wants.{on, begins_command, begins_in, begins_out, named_on, chart_next, next};

use crate::parts::{has_name_part, is_number, is_plain};

/// What may be at a place of a line: of a schedule, of a chart, or of either.
#[derive(Clone, Copy, Debug, PartialEq, Eq)]
pub enum Want {
    /// The first word of a file: `instances`, or `msc`.
    Begin,
    /// `instances`.
    Instances,
    /// The name of the first instance.
    FirstName,
    /// The name of another instance.
    OtherName,
    /// `capacity`.
    Capacity,
    /// The number of slots of a lane.
    Slots,
    /// The name of the instance that acts.
    Actor,
    /// The word for its action.
    Action,
    /// The name of the instance to which it sends. The name of the message follows.
    SendTo,
    /// The name of the instance from which it receives, or whose lane it closes.
    Partner,
    /// The name of the message that it sends.
    Message,
    /// Nothing: the line ends.
    LineEnd,
    /// A line feed, which ends the line.
    LineFeed,
    /// `msc`.
    Msc,
    /// `run;`.
    ChartName,
    /// `instance`, or `endmsc;`.
    InstanceOrEnd,
    /// `instance`: the chart has too few of them to end.
    NextInstance,
    /// `endmsc;`: the chart has as many instances as it may have.
    End,
    /// The name of an instance that begins, and a semicolon.
    InstanceName,
    /// The first word of an event, `concurrent;` or `endinstance;`.
    Event,
    /// `in`, after `concurrent;`.
    OpenedEvent,
    /// `in`, or `endconcurrent;`.
    HeldEvent,
    /// The name of a message that goes out.
    Sent,
    /// `to`.
    To,
    /// The name of the message's receiver, and a semicolon.
    Receiver,
    /// The name of a message that comes in.
    Received,
    /// `from`.
    From,
    /// The name of the message's sender, and a semicolon.
    Sender,
    /// Nothing: the chart has ended.
    ChartEnd,
}

/// Whether the word has these bytes.
pub(crate) fn is(word: &[u8], known: &[u8]) -> bool
    ensures { result ≡ bytes_eq word.now known.now }
{
    word == known
}

/// What may be next, if the word may be where it is.
fn on(may: bool, next: Want) -> Option<Want>
    ensures { result ≡ on may next }
{
    if may { Some(next) } else { None }
}

/// What may be after the word for an action.
#[tactic(auto, unfolding(crate::specs::Wants::begins_command))]
fn behind_action(word: &[u8]) -> Option<Want>
    ensures { result ≡ begins_command word.now }
{
    if is(word, b"send") {
        return Some(Want::SendTo);
    }
    if is(word, b"receive") || is(word, b"close") {
        return Some(Want::Partner);
    }
    on(
        is(word, b"any") || is(word, b"concurrent") || is(word, b"endconcurrent"),
        Want::LineEnd,
    )
}

/// What may be after the first word of a line inside an instance, if no coregion is open.
#[tactic(auto, unfolding(crate::specs::Wants::begins_out))]
fn behind_out(word: &[u8]) -> Option<Want>
    ensures { result ≡ begins_out word.now }
{
    if is(word, b"out") {
        return Some(Want::Sent);
    }
    if is(word, b"in") {
        return Some(Want::Received);
    }
    on(
        is(word, b"concurrent;") || is(word, b"endinstance;"),
        Want::LineEnd,
    )
}

/// What may be after the first word of a line in a coregion that has a receive.
#[tactic(auto, unfolding(crate::specs::Wants::begins_in))]
fn behind_in(word: &[u8]) -> Option<Want>
    ensures { result ≡ begins_in word.now }
{
    if is(word, b"in") {
        return Some(Want::Received);
    }
    on(is(word, b"endconcurrent;"), Want::LineEnd)
}

/// What may be after the first word of a line outside of an instance.
#[tactic(auto, unfolding(crate::specs::Wants::named_on))]
fn behind_head(word: &[u8]) -> Option<Want>
    ensures { result ≡ named_on word.now }
{
    if is(word, b"instance") {
        return Some(Want::InstanceName);
    }
    on(is(word, b"endmsc;"), Want::LineEnd)
}

/// What may be after a word of a chart's line.
#[tactic(auto, unfolding(crate::specs::Wants::chart_next))]
fn chart_next(want: Want, word: &[u8]) -> Option<Want>
    ensures { result ≡ chart_next want word.now }
{
    match want {
        Want::Msc => on(is(word, b"msc"), Want::ChartName),
        Want::ChartName => on(is(word, b"run;"), Want::LineEnd),
        Want::InstanceOrEnd => behind_head(word),
        Want::Event => behind_out(word),
        Want::OpenedEvent => on(is(word, b"in"), Want::Received),
        Want::HeldEvent => behind_in(word),
        Want::Sent => on(is_plain(word), Want::To),
        Want::To => on(is(word, b"to"), Want::Receiver),
        Want::Received => on(is_plain(word), Want::From),
        Want::From => on(is(word, b"from"), Want::Sender),
        Want::InstanceName | Want::Receiver | Want::Sender => {
            on(has_name_part(word), Want::LineEnd)
        }
        _ => None,
    }
}

/// What may be after a word, or `None` if the word itself can't be there.
#[tactic(auto, unfolding(crate::specs::Wants::next))]
pub(crate) fn next(want: Want, word: &[u8]) -> Option<Want>
    ensures { result ≡ next want word.now }
{
    match want {
        Want::Instances => on(is(word, b"instances"), Want::FirstName),
        Want::FirstName | Want::OtherName => on(!word.is_empty(), Want::OtherName),
        Want::Capacity => on(is(word, b"capacity"), Want::Slots),
        Want::Slots => on(is_number(word), Want::LineEnd),
        Want::Actor => on(!word.is_empty(), Want::Action),
        Want::Action => behind_action(word),
        Want::SendTo => on(!word.is_empty(), Want::Message),
        Want::Partner | Want::Message => on(!word.is_empty(), Want::LineEnd),
        _ => chart_next(want, word),
    }
}
