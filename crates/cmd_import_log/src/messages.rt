//! The messages of a log's texts, at least one of which is received.
ghost use Rattle.std.specs.Prelude.{◌≡◌, map, IfOk, IfErr};
ghost use Rattle.log_lines.specs.Events.{logged_event_view};
ghost use Rattle.cmd_import_log.specs.Imported.{IsLog, IsRefusalOf};
ghost use Rattle.cmd_import_log.specs.Options.{options_view};
ghost use Rattle.cmd_import_log.specs.Reading.{log_view, is_receive, has_receive, IsKept};

use crate::error::LogImportError;
use crate::options::Options;
use crate::reading::{ReadLog, read_log};
use crate::unread::first_unread_in;
use log_lines::{Act, LoggedEvent};
use std::alloc::Global;

fn is_receive(act: Act) -> bool
    ensures { result ≡ is_receive act }
{
    match act {
        Act::Send => false,
        Act::Receive => true,
    }
}

/// Whether some line is a receive.
fn has_receive(logged: &[LoggedEvent<'_>]) -> bool
    ensures { result ≡ has_receive (map logged_event_view logged.now) }
{
    for line in logged {
        if is_receive(line.event.act) {
            return true;
        }
    }
    false
}

/// The messages of a log's texts, some line of which is a receive.
///
/// F39 refuses an invalid expression, F38 texts without a message, and F51 texts without a receive. F6 is possible at
/// any point.
pub(crate) fn messages_in<'a>(
    alloc: Global,
    options: &Options<'a>,
    texts: &[&'a [u8]],
) -> Result<ReadLog<'a>, LogImportError>
    ensures ok { IfOk result (λ log. IsLog (options_view options.now) (map (λ text. text.now) texts.now) (log_view log)) }
    ensures kept { IfOk result (λ log. IsKept (options_view options.now).form log.expression) }
    ensures err { IfErr result (IsRefusalOf (options_view options.now) (map (λ text. text.now) texts.now)) }
{
    let log = read_log(alloc, options.form, options.range, texts)?;
    let logged = log.read.logged.as_slice();
    if logged.is_empty() {
        let unread = first_unread_in(alloc, options, &log.expression, texts)?;
        return Err(LogImportError::NotALog(log.lines, log.read.others, unread));
    }
    if !has_receive(logged) {
        let sends = logged.len() as u64;
        let unread = first_unread_in(alloc, options, &log.expression, texts)?;
        return Err(LogImportError::NoReceive(sends, log.lines, log.read.others, unread));
    }
    Ok(log)
}
