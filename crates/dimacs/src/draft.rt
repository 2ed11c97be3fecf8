// What was read of a file so far: its problem, its nodes, its first 2,000 arcs, and how many arcs there were.
ghost use Rattle.std.specs.Prelude.{◌≡◌, ◌≤◌, length, min};
ghost use Rattle.bounded.specs.Items.{items};
ghost use Rattle.dimacs.specs.Scan.{sites_of};

use crate::document::{Arc, Problem};
use crate::draft::nodes::Nodes;
use bounded::bounded::Bounded;

mod nodes;

pub use nodes::scan;

#[derive(Clone, Copy)]
pub struct Draft {
    problem: Option<Problem>,
    nodes: Nodes,
    arcs: Bounded<Arc, 2000>,
    lines: usize,
    ghost small: { sites_of problem ≤ 64 },
    ghost kept: { length (items arcs) ≡ min lines 2000 },
}
