//! The scripts of a schedule: a behaviour for each instance, which does the instance's commands in order.
//!
//! What is promised ([`scripts`]): each instance has one script, whose acts are exactly those of its commands, in the
//! order of the schedule (`specs/Scripts/InstanceScripts.antt`). The scripts keep no order between the commands of two
//! instances: the threads decide it. The only refusal is F6.

mod making;

pub use making::scripts;
