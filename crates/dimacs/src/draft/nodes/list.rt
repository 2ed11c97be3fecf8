// The calls of a list of nodes.
ghost use Rattle.std.specs.Prelude.{◌≡◌, ◌^◌, ◌<◌, ◌≤◌, [], length};
ghost use Rattle.dimacs.specs.Contents.{nodes_in};
ghost use Rattle.dimacs.specs.Nodes.{vacant, with_more};
ghost use Rattle.dimacs.specs.Scan.{gives, supply, taken};

use crate::document::Node;
use crate::draft::nodes::Nodes;
use bounded::bounded::Bounded;

mod entries;

pub use entries::scan;

// What a node gives: where it takes, nothing.
fn given(node: &Node) -> u64
    ensures value { result ≡ gives node.now.flow }
    ensures bound { result < 2 ^ 31 }
{
    if node.flow > 0 { node.flow as u64 } else { 0 }
}

impl Nodes {
    fn none() -> Nodes
        ensures { nodes_in result ≡ [] }
    {
        Nodes {
            list: Bounded::new(),
        }
    }

    fn as_slice(&self) -> &[Node]
        ensures value { result.now ≡ nodes_in self.now }
        ensures bound { length result.now ≤ 64 }
    {
        self.list.as_slice()
    }

    // Whether a node has that id.
    fn has(&self, id: u32) -> bool
        ensures { result ≡ taken (nodes_in self.now) id }
    {
        self.as_slice().iter().any(|node| node.id == id)
    }

    // The sum of the positive flows.
    fn supply(&self) -> u64
        ensures { result ≡ supply (nodes_in self.now) }
    {
        self.as_slice().iter().map(given).sum()
    }

    // One node more, unless its id is taken or not from 1 to 64.
    fn add(&mut self, node: Node)
        ensures { nodes_in self.new ≡ with_more (nodes_in self.old) node }
    {
        if 1 <= node.id && node.id <= 64 && !self.has(node.id) {
            // There is room, since no two nodes share an id.
            let _ = self.list.push(node);
        }
    }
}
