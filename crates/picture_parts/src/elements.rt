//! The elements of a picture as SVG text: arrows, labels, lifelines, marks and their meanings, and the frame around
//! them.
//!
//! What is promised: each call adds exactly the text that its contract states. If a put fails (F24), a beginning of it
//! was put. Nothing here takes memory.

mod elements;
mod frame;
mod labels;
mod legend;
mod spot;

pub use elements::{
    add_arrow, add_bracket_end, add_bracket_name, add_bracket_outline, add_dot_end, add_dot_start,
    add_foot, add_group_end, add_head_box, add_label_end, add_label_start, add_number,
    add_point_start, add_ring, add_segment,
};
pub use frame::{add_heading, add_markers, add_styles, add_svg_end, add_svg_start, add_title};
pub use labels::{add_label, add_name_lines};
pub use legend::{Marks, add_legend, legend_tall};
pub use spot::Spot;
