// The balance of a table of terminals, and when they can be met at all.
ghost use Rattle.std.specs.Prelude.{◌≡◌};
ghost use Rattle.wires.specs.Duality.{Settled};
ghost use Rattle.wires.specs.Sums.{sum};
ghost use Rattle.wires.specs.Wiring.{seated};

use crate::terminal::Terminal;

// The sum of the seated currents; by a loop, since the toolchain's sum of signed numbers says nothing of its bound.
pub fn balance_of(rows: &[Option<Terminal>; 64]) -> i64
    ensures answer { result ≡ sum (λ (t : Terminal). t.current) (seated rows.now) }
    ensures settled { Settled (seated rows.now) result }
{
    let mut balance: i64 = 0;
    for row in rows {
        if let Some(terminal) = *row {
            balance += i64::from(terminal.current);
        }
    }
    balance
}
