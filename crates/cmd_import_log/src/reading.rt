//! The contents of a log.
ghost use Rattle.std.specs.Prelude.{◌≡◌, None, map, IfOk, IfErr};
ghost use Rattle.log_lines.specs.Events.{logged_event_view};
ghost use Rattle.log_formats.specs.Patterns.Expressions.{IsExpression};
ghost use Rattle.cmd_import_log.specs.Options.{Pattern, form_view};
ghost use Rattle.cmd_import_log.specs.Reading.{log_view, is_of_line, is_captured, plain_log, clocked_log, IsReadBy, Says, IsKept, IsBadExpression, IsBadForm};

use crate::counting::lines_read;
use crate::error::LogImportError;
use crate::options::Form;
use log_formats::clocks::{Timed, by_clocks};
use log_formats::patterns::{BadExpression, Expression, read_by};
use log_lines::{LineRange, LoggedEvent, Place, Read, read_plain, read_shiviz};
use std::alloc::{AllocError, Global};

/// The contents of a log, as read.
#[derive(Drop)]
pub(crate) struct ReadLog<'a> {
    pub read: Read<'a>,
    /// The number of lines that were read.
    pub lines: u64,
    /// Whether messages were captured. Then only their order at the tap is known.
    pub is_captured: bool,
    /// Whether clocks imply messages.
    pub is_timed: bool,
    /// The expression that reads the lines, if there is one.
    pub expression: Option<Expression>,
}

/// The contents of texts in plain words.
fn plainly<'a>(
    alloc: Global,
    range: LineRange,
    texts: &[&'a [u8]],
) -> Result<ReadLog<'a>, AllocError>
    ensures { IfOk result (λ log. log_view log ≡ plain_log range (map (λ text. text.now) texts.now)) }
{
    let lines = lines_read(range, texts)?;
    Ok(ReadLog {
        read: read_plain(alloc, range, texts)?,
        lines,
        is_captured: false,
        is_timed: false,
        expression: None,
    })
}

/// The contents of texts in the form of logs for ShiViz.
fn with_clocks<'a>(
    alloc: Global,
    range: LineRange,
    texts: &[&'a [u8]],
) -> Result<ReadLog<'a>, AllocError>
    ensures { IfOk result (λ log. log_view log ≡ clocked_log range (map (λ text. text.now) texts.now)) }
{
    let read = read_shiviz(alloc, range, texts)?;
    let Timed { read, is_timed } = by_clocks(alloc, read)?;
    let lines = lines_read(range, texts)?;
    Ok(ReadLog {
        read,
        lines,
        is_captured: false,
        is_timed,
        expression: None,
    })
}

/// Whether the previous event is of the line at this place.
fn is_of_line(above: Option<Place>, place: Place) -> bool
    ensures { result ≡ is_of_line above place }
{
    match above {
        None => false,
        Some(above) => above.text == place.text && above.line == place.line,
    }
}

/// Whether a line has two events: the send and the receive of a captured message.
fn is_captured(logged: &[LoggedEvent<'_>]) -> bool
    ensures { result ≡ is_captured None (map logged_event_view logged.now) }
{
    let mut above: Option<Place> = None;
    for event in logged {
        if is_of_line(above, event.place) {
            return true;
        }
        above = Some(event.place);
    }
    false
}

/// The expression with this text. F39: the text is no expression.
fn expression_in(alloc: Global, text: &str) -> Result<Expression, LogImportError>
    ensures ok { IfOk result (IsExpression text.now) }
    ensures err { IfErr result (IsBadExpression text.now) }
{
    match Expression::new(alloc, text) {
        Ok(expression) => Ok(expression),
        Err(BadExpression::Memory) => Err(LogImportError::Memory),
        Err(BadExpression::At(place, fault)) => Err(LogImportError::BadPattern(place, fault)),
    }
}

/// The contents of texts that an expression reads.
fn by_pattern<'a>(
    alloc: Global,
    pattern: &str,
    range: LineRange,
    texts: &[&'a [u8]],
) -> Result<ReadLog<'a>, LogImportError>
    ensures ok { IfOk result (λ log. IsReadBy pattern.now range (map (λ text. text.now) texts.now) (log_view log)) }
    ensures kept { IfOk result (λ log. IsKept (Pattern pattern.now) log.expression) }
    ensures err { IfErr result (IsBadExpression pattern.now) }
{
    let expression = expression_in(alloc, pattern)?;
    let read = read_by(alloc, &expression, range, texts)?;
    let is_captured = is_captured(&read.logged);
    let Timed { read, is_timed } = by_clocks(alloc, read)?;
    let lines = lines_read(range, texts)?;
    Ok(ReadLog {
        read,
        lines,
        is_captured,
        is_timed,
        expression: Some(expression),
    })
}

/// The contents of a log's texts. F39: the expression is invalid.
pub(crate) fn read_log<'a>(
    alloc: Global,
    form: Form<'_>,
    range: LineRange,
    texts: &[&'a [u8]],
) -> Result<ReadLog<'a>, LogImportError>
    ensures ok { IfOk result (λ log. Says (form_view form.entry) range (map (λ text. text.now) texts.now) (log_view log)) }
    ensures kept { IfOk result (λ log. IsKept (form_view form.entry) log.expression) }
    ensures err { IfErr result (IsBadForm (form_view form.entry)) }
{
    match form {
        Form::Plain => Ok(plainly(alloc, range, texts)?),
        Form::Pattern(pattern) => by_pattern(alloc, pattern, range, texts),
        Form::ShiViz => Ok(with_clocks(alloc, range, texts)?),
    }
}
