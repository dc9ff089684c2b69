//! The warnings about a picture of another tool's text.
ghost use Rattle.std.specs.Prelude.{◌≡◌, filter, not, IfOk};
ghost use Rattle.cmd_import_diagram.specs.Order.{in_order};
ghost use Rattle.cmd_draw.specs.Imports.Diagnostics.{is_pictured, picture_left_out, pictured_exit};

use cmd_base::Answer;
use cmd_import_diagram::{in_order, write_diagnostics};
use diagram_join::Overtaking;
use diagram_labels::Renamed;
use diagrams::{Kind, LeftOut};
use std::alloc::{AllocError, Global};
use texts::Out;

/// The warnings about a picture. They list the constructs that it lacks, in the order of their first places. Then come
/// the messages that overtake another one, and each name that isn't the words of its label.
#[derive(Debug, Drop)]
pub struct Diagnostics {
    pub(crate) left_out: Vec<LeftOut>,
    pub(crate) overtaking: Vec<Overtaking>,
    pub(crate) renamed: Vec<Renamed>,
}

/// Whether a picture has this kind of construct, which a chart can't express.
fn is_pictured(kind: Kind) -> bool
    ensures { result ≡ is_pictured kind }
{
    match kind {
        Kind::Note | Kind::Divider | Kind::Delay => true,
        _ => false,
    }
}

/// The constructs that a chart leaves out and its picture lacks too, in the order of their first places.
pub(crate) fn picture_left_out(
    alloc: Global,
    left_out: &[LeftOut],
) -> Result<Vec<LeftOut>, AllocError>
    ensures { IfOk result (λ kinds. kinds.items ≡ in_order (picture_left_out left_out.now)) }
{
    let kinds: Vec<LeftOut> = left_out
        .iter()
        .copied()
        .filter(|kind| !is_pictured(kind.kind))
        .collect(alloc)?;
    in_order(alloc, &kinds)
}

/// Prints the warnings, with status 0.
impl Answer for Diagnostics {
    ghost exit = { pictured_exit };

    fn status(&self) -> u8 {
        0
    }

    fn print_diagnostics<V: Out>(&self, err: &mut V) {
        let _ = write_diagnostics(&self.left_out, &self.overtaking, &self.renamed, err);
    }
}
