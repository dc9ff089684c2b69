//! The laws of what is made of diagrams, schedules and charts: their charts, the turns of their runs, and vector time.
//!
//! What is promised:
//!
//! - A diagram's chart has exactly the arrows that it keeps, on the lanes between their instances, in the order of the
//!   text and with their names. It counts or reports each other arrow, and each note. This holds for each tool, with
//!   and without joined lines, if no note states a send or a receive ([`import_law`]).
//! - The turns of a diagram, whose lines may be joined, are those of a run of its chart ([`diagram_turns_law`]). So are
//!   the turns of a schedule whose commands are on different lines ([`replay_turns_law`]), and those of any legal
//!   history ([`history_turns_law`]). So the layout that a picture has for these turns keeps them
//!   (`chart_layout::kept_turns`).
//! - The log of an export has each drawn event with its vector time ([`vector_time_law`]). The clock's entry for an
//!   instance is the number of its events that are this event or happened before it (Lamport). The order is that of the
//!   lines and messages as they are drawn, of which lanes enforce only a part.
#![tactic(auto)]

mod laws;

pub use laws::{
    diagram_turns_law, history_turns_law, import_law, replay_turns_law, vector_time_law,
};
