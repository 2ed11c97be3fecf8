// Lays the wires of a solved case, and writes its marks into their rows.
ghost use Rattle.std.specs.Prelude.{◌≡◌, ℕ, ◌+◌, ◌<◌, true, length, List, Option};
ghost use Rattle.ruler.specs.Meaning.{Meaning, Metric};
ghost use Rattle.wires.specs.declared.terminal.Terminal.{Terminal};
ghost use Rattle.audit.specs.Law.{Upheld};
ghost use Rattle.transport.specs.Transport.{at};
ghost use Rattle.planner.specs.Costs.{CaseOf};
ghost use Rattle.planner.specs.Listing.{Drafted, Marked, Placed};
ghost use Rattle.planner.specs.Planned.{Planned};

use crate::ends::costs::listing::{Draft, Solution};
use crate::plan::{Link, Plan};
use bounded::bounded::Bounded;

mod planning;

pub use planning::plan_of;

// Writes the marks of ends into their rows.
fn mark_rows(mut by_row: [u32; 64], ends: &[usize], marks: &[u32; 64]) -> [u32; 64]
    requires { Placed ends.now }
    ensures { Marked ends.now marks.now (length ends.now) by_row result }
{
    for (k, row) in ends.iter().enumerate() {
        by_row[*row] = marks[k];
    }
    by_row
}

impl<'a> Solution<'a> {
    // Adds the wires of source i, which stands in that row, by sink.
    fn lay_row(&self, i: usize, from: usize, draft: &mut Draft)
        requires inside { i < self.now.case.now.sources }
        requires row { from ≡ at self.now.ends.sources.now i }
        requires before { Drafted self.now.case.now self.now.ends.sources.now self.now.ends.sinks.now self.now.plan.now.flow i 0 draft.old }
        ensures { Drafted self.now.case.now self.now.ends.sources.now self.now.ends.sinks.now self.now.plan.now.flow (i + 1) 0 draft.new }
    {
        for (j, to) in self.ends.sinks.iter().enumerate() {
            let current = self.plan.flow[64 * i + j];
            if current > 0 {
                // There is room for a wire between any two ends.
                let _ = draft.links.push(Link {
                    from: from as u32 + 1,
                    to: *to as u32 + 1,
                    current,
                });
                draft.area += u64::from(current) * u64::from(self.case.cost[64 * i + j]);
            }
        }
    }

    // The wires by source, and then by sink: rows ascend, so ids do.
    fn lay_links(&self) -> Draft
        ensures { Drafted self.now.case.now self.now.ends.sources.now self.now.ends.sinks.now self.now.plan.now.flow self.now.case.now.sources 0 result }
    {
        let mut draft = Draft {
            links: Bounded::new(),
            area: 0,
        };
        for (i, from) in self.ends.sources.iter().enumerate() {
            self.lay_row(i, *from, &mut draft);
        }
        draft
    }

    // Every source sends and every sink receives, so marks that are fair to each pair of them are so to every two rows.
    fn lay_out(&self) -> Plan
        ensures { (m : Meaning) → Metric m → Upheld m self.now.ends.table.now.rows → CaseOf m self.now.ends.table.now.rows self.now.ends.sources.now self.now.ends.sinks.now self.now.case.now → Planned m self.now.ends.table.now.rows result }
    {
        let draft = self.lay_links();
        let by_source = mark_rows([0; 64], self.ends.sources, &self.plan.source_mark);
        Plan {
            links: draft.links,
            marks: mark_rows(by_source, self.ends.sinks, &self.plan.sink_mark),
            area: draft.area,
        }
    }
}
