//! Names for the labels of sequence diagrams: the spelling of a label, and names that never collide.
//!
//! What is promised:
//!
//! - A label that is a name stays as it is. The spelling of any label is a name ([`spelled`], [`spelled_law`]).
//! - No earlier label has the name of a new label ([`GivenNames::give`], [`called_law`]). This name is the label's
//!   spelling. If another label has that, it is the spelling with the least number from 2 on that makes it free.
//! - A name is reported if it isn't the label with one `_` for each blank ([`add_renamed_labels`]).
//! - Memory is taken for spellings and for the given names.
//!
//! [`renamed`] writes the lines that report names which differ from their labels.
#![tactic(auto)]

mod giving;
mod labels;
mod laws;
pub mod renamed;
mod renaming;
mod spelling;

pub use giving::GivenNames;
pub use labels::{LabelNames, is_renamed};
pub use laws::{called_law, labels_law, spelled_law};
pub use renaming::{Renamed, add_if_renamed, add_renamed_labels};
pub use spelling::spelled;
