//! Instances and names of messages by their numbers and letters, assertions, and the end of a test whose growths are
//! refused.
//!
//! Each assertion is a function. The borrow checker's part of a proof grows with each branch of a function, and an
//! `assert!` or an `assert_eq!` is a branch.
use chart::{EventNo, InstanceNo, Name};
use std::alloc::Global;
use std::process::Abort;
use std::test::Fail;

/// Asserts that something holds.
pub fn holds(rt: &impl Abort, what: &str, fact: bool) {
    assert!(rt; fact, "not so: {what}");
}

/// Asserts how many there are.
pub fn are(rt: &impl Abort, what: &str, many: usize, wanted: usize) {
    assert!(rt; many == wanted, "{what}: {many}, and not {wanted}");
}

/// Asserts that these are the wanted bytes.
pub fn are_bytes(rt: &impl Abort, what: &str, bytes: &[u8], wanted: &[u8]) {
    assert_eq!(rt; bytes, wanted, "{what}");
}

/// Puts a value at the end of a list.
pub fn put<T: Drop>(rt: &impl Abort, list: &mut Vec<T>, value: T) {
    assert!(rt; list.push(value).is_ok());
}

pub fn instance(rt: &impl Abort, number: usize) -> InstanceNo {
    InstanceNo::new(number).expect(rt, "an instance")
}

pub fn name(rt: &impl Abort, bytes: &[u8]) -> Name {
    Name::new(bytes).expect(rt, "a name")
}

/// The event of this instance with this number.
pub fn event(rt: &impl Abort, number: usize, index: u32) -> EventNo {
    let instance = instance(rt, number);
    EventNo { instance, index }
}

/// The last growth of a test. Its refusal shows that each growth before it was refused in an earlier run of the test.
pub fn every_growth_was_refused(alloc: Global) -> Result<(), Fail> {
    Vec::<u8>::with_capacity(alloc, 1)
        .ok()
        .ok_or("every growth was refused")?;
    Ok(())
}
