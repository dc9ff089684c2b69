//! The steps of a run: what an instance does in it, and the history that steps make.
//!
//! What is promised ([`Step`]): a step is made from an instance and its event. It returns its maker, and can be put
//! outside of coregions. The history that steps make is a definition (`specs/RunSteps/Steps`).

mod step;

pub use step::Step;
