//! The lines that explain a pair. For a race these are the events that have to come before its receive, and the orders
//! of the receive's line. For an enforced pair these are the steps of its chain.
ghost use Rattle.std.specs.Prelude.{◌≡◌, ◌≤◌, ◌++◌, ◌-◌, nat_lt, length, IfOk, OnOk};
ghost use Rattle.chart.specs.declared.instance.TheConstants.{MAX_INSTANCES};
ghost use Rattle.closure.specs.Rows.{entry};
ghost use Rattle.cmd_base.specs.Pairs.Sayings.{passing, comes_first, comes_too, so, order, befores, alsos, rows, race_sayings};
ghost use Rattle.cmd_base.specs.Pairs.Sayings.{chain_sayings};

use chart::{Event, InstanceNo};
use closure::Numbers;
use closure::chain::Link;
use cmd_base::pairs::Saying;
use std::alloc::{AllocError, Global};

/// A receive's line, and its events that are before the receive: the first `count` events, and each earlier receive
/// from the receive's sender.
#[derive(Clone, Copy)]
pub(crate) struct OwnLine<'a> {
    pub events: &'a [Event],
    pub instance: InstanceNo,
    /// The number of the receive, from 1.
    pub receive: usize,
    pub sender: InstanceNo,
    pub count: usize,
}

/// Whether the event with this number, which is above the receive, is before it.
fn comes_first(own: &OwnLine<'_>, index: usize) -> bool
    requires begun { 1 ≤ index }
    requires within { index ≤ length own.now.events.now }
    ensures { result ≡ comes_first own.now.events.now own.now.count own.now.sender index }
{
    index <= own.count || own.events[index - 1].is_receive_from(own.sender)
}

/// Whether the event with this number is before the receive, and isn't one of the first `count`.
fn comes_too(own: &OwnLine<'_>, index: usize) -> bool
    requires begun { 1 ≤ index }
    requires within { index ≤ length own.now.events.now }
    ensures { result ≡ comes_too own.now.events.now own.now.count own.now.sender index }
{
    own.count < index && own.events[index - 1].is_receive_from(own.sender)
}

/// Adds, for each line, how many of its first events are before the receive.
fn add_befores(sayings: &mut Vec<Saying>, counts: &Numbers) -> Result<(), AllocError>
    requires { length counts.now ≤ MAX_INSTANCES }
    ensures { OnOk result (sayings.new.items ≡ sayings.old.items ++ befores counts.now (length counts.now)) }
{
    for place in 0..counts.len() {
        sayings.push(Saying::Before {
            instance: InstanceNo::at_place(place),
            count: counts.at(place),
        })?;
    }
    Ok(())
}

/// Adds the other events of the receive's line that are before it.
fn add_alsos(sayings: &mut Vec<Saying>, own: &OwnLine<'_>) -> Result<(), AllocError>
    requires begun { 1 ≤ own.now.receive }
    requires within { own.now.receive ≤ length own.now.events.now }
    ensures { OnOk result (sayings.new.items ≡ sayings.old.items
        ++ alsos own.now.instance
        (passing (comes_too own.now.events.now own.now.count own.now.sender) (own.now.receive - 1))) }
{
    for place in 0..own.receive - 1 {
        let index = place + 1;
        if comes_too(own, index) {
            sayings.push(Saying::Also {
                instance: own.instance,
                index,
            })?;
        }
    }
    Ok(())
}

/// Whether the event with this number, which is above the receive, is before it (if `before`) or isn't (if not).
fn comes_so(own: &OwnLine<'_>, index: usize, before: bool) -> bool
    requires begun { 1 ≤ index }
    requires within { index ≤ length own.now.events.now }
    ensures { result ≡ so before (comes_first own.now.events.now own.now.count own.now.sender index) }
{
    if before {
        comes_first(own, index)
    } else {
        !comes_first(own, index)
    }
}

/// Adds the numbers of the events above the receive that are before it (if `before`) or that aren't (if not).
fn add_above(order: &mut Vec<usize>, own: &OwnLine<'_>, before: bool) -> Result<(), AllocError>
    requires begun { 1 ≤ own.now.receive }
    requires within { own.now.receive ≤ length own.now.events.now }
    ensures { OnOk result (order.new.items ≡ order.old.items
        ++ passing (λ i. so before (comes_first own.now.events.now own.now.count own.now.sender i))
        (own.now.receive - 1)) }
{
    for place in 0..own.receive - 1 {
        let index = place + 1;
        if comes_so(own, index, before) {
            order.push(index)?;
        }
    }
    Ok(())
}

/// Adds the numbers of the events below the receive.
fn add_below(order: &mut Vec<usize>, own: &OwnLine<'_>) -> Result<(), AllocError>
    ensures { OnOk result (order.new.items ≡ order.old.items ++ passing (nat_lt own.now.receive)
        (length own.now.events.now)) }
{
    for place in 0..own.events.len() {
        if own.receive < place + 1 {
            order.push(place + 1)?;
        }
    }
    Ok(())
}

/// The numbers of the line's events in the order in which they may come. The events before the receive are first, then
/// the receive, and then the others.
fn order_of(alloc: Global, own: &OwnLine<'_>) -> Result<Vec<usize>, AllocError>
    requires begun { 1 ≤ own.now.receive }
    requires within { own.now.receive ≤ length own.now.events.now }
    ensures { IfOk result (λ numbers. numbers.items ≡ order own.now.events.now own.now.receive own.now.count
        own.now.sender) }
{
    let mut order = Vec::new(alloc);
    add_above(&mut order, own, true)?;
    order.push(own.receive)?;
    add_above(&mut order, own, false)?;
    add_below(&mut order, own)?;
    Ok(order)
}

/// Adds each event of the line with the event that takes its place in this order.
fn add_rows(sayings: &mut Vec<Saying>, order: &[usize]) -> Result<(), AllocError>
    ensures { OnOk result (sayings.new.items ≡ sayings.old.items ++ rows order.now (length order.now)) }
{
    for place in 0..order.len() {
        sayings.push(Saying::Row {
            was: place + 1,
            may: order[place],
        })?;
    }
    Ok(())
}

/// The lines that explain a race of this receive. First comes, for each line, how many of its first events are before
/// the receive. Then come the other such events of its own line, and this line as it was and as it may be.
pub(crate) fn race_sayings(
    alloc: Global,
    own: &OwnLine<'_>,
    counts: &Numbers,
) -> Result<Vec<Saying>, AllocError>
    requires begun { 1 ≤ own.now.receive }
    requires within { own.now.receive ≤ length own.now.events.now }
    requires count { own.now.count ≡ entry counts.now own.now.instance }
    requires lines { length counts.now ≤ MAX_INSTANCES }
    ensures { IfOk result (λ sayings. sayings.items
        ≡ race_sayings own.now.events.now own.now.instance own.now.receive own.now.sender counts.now) }
{
    let order = order_of(alloc, own)?;
    let mut sayings = Vec::new(alloc);
    add_befores(&mut sayings, counts)?;
    add_alsos(&mut sayings, own)?;
    add_rows(&mut sayings, order.as_slice())?;
    Ok(sayings)
}

/// The lines that explain an enforced pair: the steps of its chain.
pub(crate) fn chain_sayings(alloc: Global, links: &[Link]) -> Result<Vec<Saying>, AllocError>
    ensures { IfOk result (λ sayings. sayings.items ≡ chain_sayings links.now) }
{
    let mut sayings = Vec::new(alloc);
    for place in 0..links.len() {
        sayings.push(Saying::Step { link: links[place] })?;
    }
    Ok(sayings)
}
