//! Remarks and messages in the order of their lines.
ghost use Rattle.std.specs.Prelude.{◌≡◌, ◌++◌, map, IfOk, OnOk};
ghost use Rattle.diagrams.specs.declared.message.Message.{Message};
ghost use Rattle.diagram_import.specs.Margin.Order.{thing_view, in_order, remark_thing, message_thing, things_of};
ghost use Rattle.diagram_import.specs.Margin.Remarks.{remark_view};

use crate::margin::remark::Remark;
use diagrams::Message;
use std::alloc::{AllocError, Global};

/// A remark or a message of a text.
#[derive(Clone, Copy, Debug)]
pub(crate) struct Thing<'a> {
    /// Its line, from 1.
    pub line: u64,
    /// The words of a remark. A message has none.
    pub words: Option<&'a [u8]>,
    /// Whether a remark divides the rows.
    pub divides: bool,
}

/// A remark with its line.
fn remark_thing<'a>(remark: &'a Remark) -> Thing<'a>
    ensures { thing_view result ≡ remark_thing (remark_view remark.now) }
{
    Thing {
        line: remark.line,
        words: Some(remark.text.as_slice()),
        divides: remark.divides,
    }
}

/// A message with its line.
fn message_thing<'a>(message: &Message) -> Thing<'a>
    ensures { thing_view result ≡ message_thing message.now }
{
    Thing {
        line: message.place.line,
        words: None,
        divides: false,
    }
}

/// Adds remarks.
fn add_remarks<'a>(things: &mut Vec<Thing<'a>>, remarks: &'a [Remark]) -> Result<(), AllocError>
    ensures { OnOk result (map thing_view things.new.items
        ≡ map thing_view things.old.items ++ map remark_thing (map remark_view remarks.now)) }
{
    for remark in remarks {
        things.push(remark_thing(remark))?;
    }
    Ok(())
}

/// Adds messages.
fn add_messages(things: &mut Vec<Thing<'_>>, messages: &[Message]) -> Result<(), AllocError>
    ensures { OnOk result (map thing_view things.new.items
        ≡ map thing_view things.old.items ++ map message_thing messages.now) }
{
    for message in messages {
        things.push(message_thing(message))?;
    }
    Ok(())
}

/// Sorts remarks and messages by their lines.
fn put_in_order(things: &mut Vec<Thing<'_>>) -> Result<(), AllocError>
    ensures { OnOk result (map thing_view things.new.items ≡ in_order (map thing_view things.old.items)) }
{
    things.sort_by_key(|thing| thing.line)?;
    Ok(())
}

/// Remarks and messages in the order of their lines. In one line remarks come first. The time is in proportion to n log
/// n.
pub(crate) fn things_of<'a>(
    alloc: Global,
    remarks: &'a [Remark],
    messages: &[Message],
) -> Result<Vec<Thing<'a>>, AllocError>
    ensures { IfOk result (λ things. map thing_view things.items ≡ things_of (map remark_view remarks.now) messages.now) }
{
    let mut things = Vec::new(alloc);
    add_remarks(&mut things, remarks)?;
    add_messages(&mut things, messages)?;
    put_in_order(&mut things)?;
    Ok(things)
}
