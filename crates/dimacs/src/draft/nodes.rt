// The nodes of a file in their order. No id comes twice, so 64 places are enough.
ghost use Rattle.std.specs.Prelude.{◌≡◌, true};
ghost use Rattle.bounded.specs.Items.{items};
ghost use Rattle.dimacs.specs.Nodes.{distinct};

use crate::document::Node;
use bounded::bounded::Bounded;

mod list;

pub use list::scan;

#[derive(Clone, Copy)]
pub struct Nodes {
    list: Bounded<Node, 64>,
    ghost apart: { distinct (items list) ≡ true },
}
