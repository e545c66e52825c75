//! The construct that an answer speaks of.

ghost use Rattle.std.specs.Prelude.{◌<◌, length, IfSome};

use c_check::Program;
use c_syntax::NodeKind;
use c_tokens::Spot;

/// The construct that stands at a place.
pub(crate) fn construct_at(program: &Program, spot: Spot) -> Option<u32>
    ensures within { IfSome result (λ construct. construct < length program.now.trees) }
{
    let tree = program.tree();
    for node in 0..=tree.root() {
        if matches!(tree.kind(node), NodeKind::Construct(_)) && tree.spot(node) == spot {
            return Some(node);
        }
    }
    None
}
