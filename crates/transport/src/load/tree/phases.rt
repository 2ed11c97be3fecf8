// The phases: each grows a tree and sends what it can from the source that it found to the root.
ghost use Rattle.std.specs.Prelude.{◌≡◌, ℕ, ◌<◌, ◌≤◌, is_some, Some, None};
ghost use Rattle.transport.specs.Transport.{at, cell, sum_to, within, Optimal};
ghost use Rattle.transport.specs.Solver.{Limited, Grown, Way, Rerouted, Sent, room_at};

use crate::case::Case;
use crate::load::tree::Tree;
use crate::load::{Load, Market, Marks, neediest};
use crate::plan::Plan;

impl Tree {
    // Sends the amount from a source to the root. The sink ahead takes it in place of as much from its parent, which
    // sends this on to the sink ahead of it, and so on; the case says how far the tree can reach.
    fn reroute(&self, case: &Case, flow: &mut [u32; 4096], mut source: usize, amount: u32)
        requires way { Way case.now flow.old self.now }
        requires inside { (source < case.now.sources) × ((at self.now.slack source ≡ 0) × (amount ≤ room_at self.now.reached (at self.now.toward source))) }
        requires small { (amount ≤ 1000000) × (((i : ℕ) → i < case.now.sources → sum_to (λ j. cell flow.old i j) case.now.sinks ≤ 1000000)) }
        ensures { Rerouted case.now self.now source amount flow.old flow.new }
    {
        'back: loop {
            let sink = self.toward[source] as usize;
            flow[64 * source + sink] += amount;
            if sink == self.root {
                return;
            }
            source = self.reached[sink].unwrap().parent as usize;
            flow[64 * source + sink] -= amount;
        }
    }
}

impl Market<'_> {
    // Sends what the source has, as far as there is room, to the root of a tree.
    fn send(&mut self, tree: &Tree, source: usize)
        requires grown { Grown self.old.case.now self.old.marks self.old.load tree.now }
        requires inside { (source < self.old.case.now.sources) × ((at tree.now.slack source ≡ 0) × (0 < at self.old.load.stock source)) }
        ensures case { self.new.case.now ≡ self.old.case.now }
        ensures marks { self.new.marks ≡ self.old.marks }
        ensures sent { Sent self.old.case.now tree.now self.old.load self.new.load }
    {
        let ahead = tree.reached[tree.toward[source] as usize].unwrap();
        let amount = self.load.stock[source].min(ahead.room);
        tree.reroute(self.case, &mut self.load.flow, source, amount);
        self.load.stock[source] -= amount;
        self.load.want[tree.root] -= amount;
    }

    // Serves a sink from the source that is nearest to it by the marks.
    fn phase(&mut self, root: usize)
        requires { (root < self.old.case.now.sinks) × (0 < at self.old.load.want root) }
        ensures case { self.new.case.now ≡ self.old.case.now }
        ensures fewer { sum_to (at self.new.load.want) self.old.case.now.sinks < sum_to (at self.old.load.want) self.old.case.now.sinks }
    {
        let mut tree = Tree::rooted(self, root);
        let source = tree.grow(self);
        self.send(&tree, source);
    }

    // Serves every sink, the neediest first.
    fn settle(&mut self) -> Plan
        ensures { Optimal self.old.case.now result }
    {
        let mut phases: u32 = 0;
        while let Some(root) = neediest(&self.load.want[..self.case.sinks]) {
            self.phase(root);
            phases = phases.saturating_add(1);
        }
        Plan {
            flow: self.load.flow,
            source_mark: self.marks.source,
            sink_mark: self.marks.sink,
            phases,
        }
    }
}

// A plan of least cost, absent exactly where the case is not within the limits.
pub fn solve(case: &Case) -> Option<Plan>
    ensures absent { is_some result ≡ within case.now }
    ensures optimal { elim result [ Some plan ↦ Optimal case.now plan | None ↦ Unit {0} ] }
{
    if !case.is_within() {
        return None;
    }
    // Nothing is settled yet.
    let mut market = Market {
        case,
        marks: Marks {
            source: [0; 64],
            sink: [0; 64],
        },
        load: Load {
            flow: [0; 4096],
            stock: case.supply,
            want: case.demand,
        },
    };
    Some(market.settle())
}
