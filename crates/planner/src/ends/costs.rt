// The transport case of a net: what its sources have, what its sinks want, and the lengths between them as costs.
ghost use Rattle.std.specs.Prelude.{◌≡◌, ◌<◌, length};
ghost use Rattle.audit.specs.Audit.{row_at};
ghost use Rattle.transport.specs.Transport.{at};
ghost use Rattle.planner.specs.Costs.{Amounts, CaseOf, CostRow, Costs, cost_between};
ghost use Rattle.planner.specs.Ends.{gathered};

use crate::ends::Ends;
use crate::side::Side;
use audit::table::Table;
use ruler::ruler::Ruler;
use transport::case::Case;
use wires::terminal::Terminal;

mod listing;

pub use listing::plan_of;

// The length from one row to another, 0 where there is none to tell.
fn cost_of<R: Ruler>(ruler: &R, from: Option<Terminal>, to: Option<Terminal>) -> u32
    ensures { result ≡ cost_between (R.meaning ruler.now) from to }
{
    let Some(a) = from else {
        return 0;
    };
    let Some(b) = to else {
        return 0;
    };
    ruler.length(a.site, b.site).unwrap_or(0)
}

fn amounts_of(side: Side, table: &Table, rows: &[usize]) -> [u32; 64]
    requires { rows.now ≡ gathered table.now.rows side 64 }
    ensures { Amounts table.now.rows rows.now side (length rows.now) result }
{
    let mut amounts = [0; 64];
    for (k, row) in rows.iter().enumerate() {
        amounts[k] = side.amount(table.rows[*row]);
    }
    amounts
}

impl<'a> Ends<'a> {
    // Fills in the costs from source i, which stands in that row.
    fn fill_row<R: Ruler>(
        &self,
        ruler: &R,
        i: usize,
        from: Option<Terminal>,
        costs: &mut [u32; 4096],
    )
        requires inside { i < length self.now.sources.now }
        requires row { from ≡ row_at self.now.table.now.rows (at self.now.sources.now i) }
        ensures { CostRow (R.meaning ruler.now) self.now.table.now.rows self.now.sources.now self.now.sinks.now i (length self.now.sinks.now) costs.old costs.new }
    {
        for (j, to) in self.sinks.iter().enumerate() {
            costs[64 * i + j] = cost_of(ruler, from, self.table.rows[*to]);
        }
    }

    fn costs<R: Ruler>(&self, ruler: &R) -> [u32; 4096]
        ensures { Costs (R.meaning ruler.now) self.now.table.now.rows self.now.sources.now self.now.sinks.now (length self.now.sources.now) result }
    {
        let mut costs = [0; 4096];
        for (i, from) in self.sources.iter().enumerate() {
            self.fill_row(ruler, i, self.table.rows[*from], &mut costs);
        }
        costs
    }

    fn case<R: Ruler>(&self, ruler: &R) -> Case
        ensures { CaseOf (R.meaning ruler.now) self.now.table.now.rows self.now.sources.now self.now.sinks.now result }
    {
        Case {
            sources: self.sources.len(),
            sinks: self.sinks.len(),
            supply: amounts_of(Side::Source, self.table, self.sources),
            demand: amounts_of(Side::Sink, self.table, self.sinks),
            cost: self.costs(ruler),
        }
    }
}
