//! The memory that a test program takes for itself.

/// It does nothing. The memory that is left after it is that of the test program itself (`tools/test/leaks`).
#[test]
fn nothing_is_done() {}
