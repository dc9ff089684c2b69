//! The instances of joined lines.
ghost use Rattle.std.specs.Prelude.{◌≡◌, ◌≤◌, ◌<◌, ◌+◌, length, slice_index_or, map, position, IfOk, Some, OnOk, is_some, if◌then◌else◌, ◌++◌, ◌∷◌, []};
ghost use Rattle.chart.specs.Names.{instance_of};
ghost use Rattle.chart.specs.declared.instance.TheConstants.{MAX_INSTANCES};
ghost use Rattle.diagrams.specs.Diagrams.{participant_view};
ghost use Rattle.diagram_join.specs.Joins.{join_view, has_part, process_of, names_from, all_parts, is_line, is_unknown, count_in, is_twice, is_misnamed, takes, text_line, other_with, taken_from};

use crate::join::Join;
use chart::{InstanceNo, MAX_INSTANCES, Name, Names, NamesError};
use diagrams::Participant;
use std::alloc::{AllocError, Global};

/// Adds the name of the instance at this place.
fn add_listed(listed: &mut Vec<Name>, names: &Names, place: usize) -> Result<(), AllocError>
    requires { place < length names.now }
    ensures { OnOk result (listed.new.items ≡ listed.old.items ++ slice_index_or names.now place [] ∷ []) }
{
    prove!(names.len() <= MAX_INSTANCES);
    let Some(name) = names.name(InstanceNo::at_place(place)) else {
        unreachable!()
    };
    listed.push(name)?;
    Ok(())
}

/// The names of the lines, which are at most as many as a chart has instances.
pub(crate) fn listed(alloc: Global, names: &Names) -> Result<Vec<Name>, AllocError>
    ensures few { length names.now ≤ MAX_INSTANCES }
    ensures value { IfOk result (λ listed. listed.items ≡ names.now) }
{
    let mut listed = Vec::new(alloc);
    for place in 0..names.len() {
        add_listed(&mut listed, names, place)?;
    }
    Ok(listed)
}

/// Whether the line is a part of a join.
fn has_part(join: &Join<'_>, line: Name) -> bool
    ensures { result ≡ has_part (join_view join.now) line }
{
    join.parts.iter().any(|part| *part == line)
}

/// The name of a line's instance: that of its join, or its own.
#[tactic(auto, unfolding(crate::specs::Joins::process_of))]
fn process_of(joins: &[Join<'_>], line: Name) -> Name
    ensures { result ≡ process_of (map join_view joins.now) line }
{
    let mut rest = joins;
    'joins: while let [join, others @ ..] = rest {
        if has_part(join, line) {
            return join.name;
        }
        rest = others;
    }
    line
}

/// The names of the instances of these lines.
pub(crate) fn processes_of(
    alloc: Global,
    joins: &[Join<'_>],
    lines: &[Name],
) -> Result<Vec<Name>, AllocError>
    ensures { IfOk result (λ v. v.items ≡ map (process_of (map join_view joins.now)) lines.now) }
{
    lines
        .iter()
        .map(|line| process_of(joins, *line))
        .collect(alloc)
}

/// Adds the name of a line's instance, unless an earlier line has added it.
fn add_name(names: &mut Names, process: Name) -> Result<(), AllocError>
    requires { length names.old < MAX_INSTANCES }
    ensures value { OnOk result (names.new ≡ (if is_some (instance_of names.old process) then names.old else names.old ++ process ∷ [])) }
    ensures count { OnOk result (length names.new ≤ length names.old + 1) }
{
    match names.add(process) {
        Ok(_) => Ok(()),
        Err(NamesError::Duplicate) => Ok(()),
        Err(NamesError::Memory) => Err(AllocError),
        Err(NamesError::Instances) => unreachable!(),
    }
}

/// The names of the instances, each once. There are at most as many lines as a chart has instances.
#[tactic(auto, unfolding(crate::specs::Joins::names_from))]
pub(crate) fn names_of(alloc: Global, processes: &[Name]) -> Result<Names, AllocError>
    requires { length processes.now ≤ MAX_INSTANCES }
    ensures { IfOk result (λ names. names ≡ names_from [] processes.now) }
{
    let mut names = Names::new(alloc);
    let mut rest = processes;
    'processes: while let [process, others @ ..] = rest {
        add_name(&mut names, *process)?;
        rest = others;
    }
    Ok(names)
}

/// The joined lines.
#[tactic(auto, unfolding(crate::specs::Joins::all_parts))]
fn all_parts(alloc: Global, joins: &[Join<'_>]) -> Result<Vec<Name>, AllocError>
    ensures { IfOk result (λ parts. parts.items ≡ all_parts (map join_view joins.now)) }
{
    let mut parts = Vec::new(alloc);
    let mut rest = joins;
    'joins: while let [join, others @ ..] = rest {
        parts.extend_from_slice(join.parts)?;
        rest = others;
    }
    Ok(parts)
}

/// Whether one of these lines has the name.
fn is_line(lines: &[Name], part: Name) -> bool
    ensures { result ≡ is_line lines.now part }
{
    lines.iter().any(|line| *line == part)
}

/// Whether one of these names is that of no line.
fn is_unknown(lines: &[Name], parts: &[Name]) -> bool
    ensures { result ≡ is_unknown lines.now parts.now }
{
    parts.iter().any(|part| !is_line(lines, *part))
}

/// How often a line is in the list.
fn count_in(parts: &[Name], line: Name) -> usize
    ensures { result ≡ count_in parts.now line }
{
    parts.iter().filter(|part| **part == line).count()
}

/// Whether a line is in the list more than once.
fn is_twice(lines: &[Name], parts: &[Name]) -> bool
    ensures { result ≡ is_twice lines.now parts.now }
{
    lines.iter().any(|line| count_in(parts, *line) > 1)
}

/// Whether a name of a line to join is that of no line, or occurs more than once.
pub(crate) fn is_misnamed(
    alloc: Global,
    joins: &[Join<'_>],
    lines: &[Name],
) -> Result<bool, AllocError>
    ensures { IfOk result (λ misnamed. misnamed ≡ is_misnamed lines.now (map join_view joins.now)) }
{
    let parts = all_parts(alloc, joins)?;
    Ok(is_unknown(lines, &parts) || is_twice(lines, &parts))
}

/// Whether the line belongs to another instance that has the join's name.
fn takes(joins: &[Join<'_>], join: &Join<'_>, line: Name) -> bool
    ensures { result ≡ takes (map join_view joins.now) (join_view join.now) line }
{
    process_of(joins, line) == join.name && !has_part(join, line)
}

/// The place of the first such line.
fn place_with(joins: &[Join<'_>], lines: &[Name], join: &Join<'_>) -> Option<usize>
    ensures { result ≡ position (takes (map join_view joins.now) (join_view join.now)) lines.now }
{
    lines.iter().position(|line| takes(joins, join, *line))
}

/// The line of the text that first names another instance with the join's name.
fn other_with(
    joins: &[Join<'_>],
    lines: &[Name],
    participants: &[Participant],
    join: &Join<'_>,
) -> Option<u64>
    ensures { result ≡ other_with (map join_view joins.now) lines.now (map participant_view participants.now) (join_view join.now) }
{
    match place_with(joins, lines, join) {
        Some(place) => line_at(participants, place),
        None => None,
    }
}

/// The line of the text that first names the participant at this place.
fn line_at(participants: &[Participant], place: usize) -> Option<u64>
    ensures { result ≡ text_line (map participant_view participants.now) (Some place) }
{
    match participants.get(place) {
        Some(participant) => Some(participant.line),
        None => None,
    }
}

/// The line of the text that first names another instance with the name of a join, for the first such join.
#[tactic(auto, unfolding(crate::specs::Joins::taken_from))]
pub(crate) fn taken(joins: &[Join<'_>], lines: &[Name], participants: &[Participant]) -> Option<u64>
    ensures { result ≡ taken_from (map join_view joins.now) lines.now (map participant_view participants.now) (map join_view joins.now) }
{
    let mut rest = joins;
    'joins: while let [join, others @ ..] = rest {
        if let Some(line) = other_with(joins, lines, participants, join) {
            return Some(line);
        }
        rest = others;
    }
    None
}
