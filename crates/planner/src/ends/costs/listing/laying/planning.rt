// The plan of a net.
ghost use Rattle.std.specs.Prelude.{◌≡◌, not, pos, is_some};
ghost use Rattle.wires.specs.Sums.{sum};
ghost use Rattle.wires.specs.Wiring.{seated};
ghost use Rattle.audit.specs.Audit.{differ};
ghost use Rattle.audit.specs.Law.{Upheld};
ghost use Rattle.planner.specs.Planned.{IfPlanned, Planned};

use crate::ends::Ends;
use crate::ends::costs::listing::Solution;
use crate::ends::gathering::rows_on;
use crate::plan::Plan;
use crate::side::Side;
use audit::table::Table;
use ruler::ruler::Ruler;
use transport::solve;
use wires::balance::balance_of;

// The wires of least area with their marks, absent exactly where the currents do not sum to 0. A wire through other
// sites never helps, so they are those of a least-cost transport from the sources to the sinks.
pub fn plan_of<R: Ruler>(ruler: &R, table: &Table) -> Option<Plan>
    ensures absent { is_some result ≡ not (differ (sum (λ t. t.current) (seated table.now.rows)) (pos 0)) }
    ensures planned { Upheld (R.meaning ruler.now) table.now.rows → IfPlanned result (Planned (R.meaning ruler.now) table.now.rows) }
{
    if balance_of(&table.rows) != 0 {
        return None;
    }
    let sources = rows_on(Side::Source, table);
    let sinks = rows_on(Side::Sink, table);
    let ends = Ends {
        table,
        sources: sources.as_slice(),
        sinks: sinks.as_slice(),
    };
    let case = ends.case(ruler);
    let Some(plan) = solve(&case) else {
        unreachable()
    };
    let solution = Solution {
        ends,
        case: &case,
        plan: &plan,
    };
    Some(solution.lay_out())
}
