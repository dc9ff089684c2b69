//! The columns of a picture: which instances are drawn, and in which order.
ghost use Rattle.std.specs.Prelude.{◌≡◌, ◌≤◌, ◌<◌, ◌∷◌, [], length, nat_eq, position};
ghost use Rattle.std.specs.Prelude.{MatchOption, IfSome, IfOk, IfErr, OnOk, option_map};
ghost use Rattle.std.specs.List.{list_any, range_with_len};
ghost use Rattle.chart.specs.declared.instance.TheConstants.{MAX_INSTANCES};
ghost use Rattle.texts.specs.Lines.{parts};
ghost use Rattle.cmd_base.specs.Columns.Columns.{IsNext, RefusesNext, AreNamed, RefusesNamed, AreColumns, RefusesColumns};
ghost use Rattle.cmd_base.specs.Named.Asked.{instance_named};

use crate::ProgramError;
use crate::columns::error::ColumnError;
use crate::named::instance_named;
use chart::{InstanceNo, MAX_INSTANCES, Names};
use std::alloc::{AllocError, AllocFailed, Global};

/// The index of the first comma.
fn comma_in(bytes: &[u8]) -> Option<usize>
    ensures { result ≡ position (λ b. nat_eq b 44) bytes.now }
{
    bytes.iter().position(|byte| *byte == b',')
}

/// The bytes up to the first comma, and the bytes after it, if there is one.
fn next_name(bytes: &[u8]) -> (&[u8], Option<&[u8]>)
    ensures cut { MatchOption result.1
        (parts 44 bytes.now ≡ result.0.now ∷ [])
        (λ rest. parts 44 bytes.now ≡ result.0.now ∷ parts 44 rest.now) }
    ensures shorter { IfSome result.1 (λ rest. length rest.now < length bytes.now) }
{
    match comma_in(bytes) {
        None => (bytes, None),
        Some(place) => (&bytes[..place], Some(&bytes[place + 1..])),
    }
}

fn has_column(columns: &[InstanceNo], instance: InstanceNo) -> bool
    ensures { result ≡ list_any (nat_eq instance) columns.now }
{
    columns.iter().any(|column| instance == *column)
}

/// Appends the column of the instance with this name. F34: no instance has this name, or the instance already has a
/// column.
fn add_column(columns: &mut Vec<InstanceNo>, names: &Names, name: &[u8]) -> Result<(), ColumnError>
    ensures ok { OnOk result (IsNext names.now name.now columns.old.items columns.new.items) }
    ensures err { IfErr result (RefusesNext names.now name.now columns.old.items) }
{
    let Some(instance) = instance_named(names, name) else {
        return Err(ColumnError::NoSuchName);
    };
    if has_column(columns.as_slice(), instance) {
        return Err(ColumnError::NoSuchName);
    }
    match columns.push(instance) {
        Ok(()) => Ok(()),
        Err(AllocFailed { .. }) => Err(ColumnError::Program(ProgramError::Memory)),
    }
}

/// The named instances, in this order. F34: a name is none of the chart's, or an instance is named twice.
fn named_columns(alloc: Global, names: &Names, only: &[u8]) -> Result<Vec<InstanceNo>, ColumnError>
    ensures ok { IfOk result (λ columns. AreNamed names.now (parts 44 only.now) columns.items) }
    ensures err { IfErr result (RefusesNamed names.now (parts 44 only.now)) }
    ensures limit { IfOk result (λ columns. length columns.items ≤ length names.now) }
{
    let mut columns = Vec::new(alloc);
    let mut rest = only;
    'names: loop {
        let (name, more) = next_name(rest);
        add_column(&mut columns, names, name)?;
        match more {
            None => return Ok(columns),
            Some(more) => rest = more,
        }
    }
}

/// All instances, by number.
fn all_columns(alloc: Global, names: &Names) -> Result<Vec<InstanceNo>, AllocError>
    ensures columns { IfOk result (λ columns. columns.items ≡ range_with_len 1 (length names.now)) }
    ensures limit { IfOk result (λ columns. length columns.items ≤ length names.now) }
{
    let mut columns = Vec::new(alloc);
    for place in 0..names.len() {
        columns.push(InstanceNo::at_place(place))?;
    }
    Ok(columns)
}

/// The instances that have a column, the leftmost first. `only` has their names, joined by commas. Without it all
/// instances have a column, by number.
///
/// F34: a name is none of the chart's, such as an empty one, or is given twice. F6: a growth was refused.
pub fn columns_in(
    alloc: Global,
    names: &Names,
    only: Option<&[u8]>,
) -> Result<Vec<InstanceNo>, ColumnError>
    ensures ok { IfOk result (λ columns. AreColumns names.now (option_map (λ bytes. bytes.now) only.entry)
        columns.items) }
    ensures err { IfErr result (RefusesColumns names.now (option_map (λ bytes. bytes.now) only.entry)) }
    ensures limit { IfOk result (λ columns. length columns.items ≤ MAX_INSTANCES) }
{
    prove!(names.len() <= MAX_INSTANCES);
    match only {
        Some(only) => named_columns(alloc, names, only),
        None => match all_columns(alloc, names) {
            Ok(columns) => Ok(columns),
            Err(AllocError) => Err(ColumnError::Program(ProgramError::Memory)),
        },
    }
}
