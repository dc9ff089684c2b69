//! A number for each line: the greater of two, and copies.
ghost use Rattle.std.specs.Prelude.{◌≡◌, ℕ, max, length, IfOk};
ghost use Rattle.closure.specs.Rows.{entry};

use crate::Numbers;
use std::alloc::{AllocError, Global};

/// Replaces each number by the greater one of the two.
pub(crate) fn raise(numbers: &mut Numbers, by: &Numbers)
    requires { length numbers.old ≡ length by.now }
    ensures length { length numbers.new ≡ length numbers.old }
    ensures each { (p : ℕ) → entry numbers.new p ≡ max (entry numbers.old p) (entry by.now p) }
{
    for place in 0..by.len() {
        let greater = numbers.at(place).max(by.at(place));
        numbers.set(place, greater);
    }
}

/// The same numbers.
pub(crate) fn copied(alloc: Global, numbers: &Numbers) -> Result<Numbers, AllocError>
    ensures length { IfOk result (λ copy. length copy ≡ length numbers.now) }
    ensures each { IfOk result (λ copy. (p : ℕ) → entry copy p ≡ entry numbers.now p) }
{
    let mut copy = Numbers::zeros(alloc, numbers.len())?;
    raise(&mut copy, numbers);
    Ok(copy)
}
