//! The runtime from C: an export for each call of `include/msc.h`, which says what it does.
//!
//! Each export is the call with its name of `c_board`, `c_board::boards` or `c_commands`, with the answer as a number
//! (`specs/Answers.antt`).
#![tactic(auto)]

mod answers;
mod board_codes;
mod boards;
mod codes;
mod command_lines;
mod messages;
mod performing;
mod posts;
mod several;
mod version;

pub use answers::{MscEvent, MscLeft, MscReport};
pub use boards::{
    msc_board_left_, msc_board_report_, msc_board_text_, msc_carry_over_, msc_gather_, msc_meet_,
    msc_open_, msc_open_numbered_,
};
pub use command_lines::msc_view_;
pub use messages::{
    msc_body_, msc_body_of_, msc_name_, msc_name_of_, msc_races_, msc_races_of_, msc_receive_up_to_,
};
pub use performing::{MscLengths, msc_perform_};
pub use posts::{
    msc_any_, msc_close_, msc_close_coregion_, msc_event_, msc_free_, msc_open_coregion_,
    msc_receive_, msc_reserve_, msc_send_, msc_send_all_,
};
pub use version::msc_version;
