//! Lists of things, each with a number: the definitions of their order, and what a stable sort leaves.
//!
//! What is promised: one list has the things by their numbers, and things of the same number in their original order
//! (`specs/StableOrder/Order`). A stable sort leaves this list (`by_key` of `proofs/StableOrderLemmas/OrderLemmas`).
//! Nothing here runs.
