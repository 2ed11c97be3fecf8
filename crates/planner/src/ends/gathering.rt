// Gathers the rows of one side.
ghost use Rattle.std.specs.Prelude.{◌≡◌};
ghost use Rattle.bounded.specs.Items.{items};
ghost use Rattle.planner.specs.Ends.{gathered};

use crate::side::Side;
use audit::table::Table;
use bounded::bounded::Bounded;

pub(crate) fn rows_on(side: Side, table: &Table) -> Bounded<usize, 64>
    ensures { items result ≡ gathered table.now.rows side 64 }
{
    let mut rows = Bounded::new();
    for (i, row) in table.rows.iter().enumerate() {
        if side.amount(*row) > 0 {
            // There is room for every row of the table.
            let _ = rows.push(i);
        }
    }
    rows
}
