//! The first line of a log's texts with a match that isn't read.
ghost use Rattle.std.specs.Prelude.{◌≡◌, map, option_map, IfOk};
ghost use Rattle.log_text.specs.Unread.{line_of};
ghost use Rattle.cmd_import_log.specs.Options.{Pattern, form_view, options_view};
ghost use Rattle.cmd_import_log.specs.Reading.{IsKept};
ghost use Rattle.cmd_import_log.specs.Unread.{IsFirstUnread};

use crate::options::{Form, Options};
use log_formats::patterns::Expression;
use log_lines::LineRange;
use log_text::{UnreadLine, first_shown};
use std::alloc::{AllocError, Global};

/// The first such line of the texts, by the kept expression.
fn first_by_pattern(
    alloc: Global,
    expression: &Option<Expression>,
    pattern: &str,
    range: LineRange,
    texts: &[&[u8]],
) -> Result<Option<UnreadLine>, AllocError>
    requires { IsKept (Pattern pattern.now) expression.now }
    ensures { IfOk result (λ line. IsFirstUnread (Pattern pattern.now) range (map (λ text. text.now) texts.now) (option_map line_of line)) }
{
    match expression {
        None => Ok(None),
        Some(expression) => first_shown(alloc, expression, range, texts),
    }
}

/// The first line of the texts with a match of the expression that isn't read. Without an expression there is none.
pub(crate) fn first_unread_in(
    alloc: Global,
    options: &Options<'_>,
    expression: &Option<Expression>,
    texts: &[&[u8]],
) -> Result<Option<UnreadLine>, AllocError>
    requires { IsKept (options_view options.now).form expression.now }
    ensures { IfOk result (λ line. IsFirstUnread (options_view options.now).form options.now.range (map (λ text. text.now) texts.now) (option_map line_of line)) }
{
    match options.form {
        Form::Plain => Ok(None),
        Form::Pattern(pattern) => {
            first_by_pattern(alloc, expression, pattern, options.range, texts)
        }
        Form::ShiViz => Ok(None),
    }
}
