// The two sides of a net: sources give current, and sinks take it.
ghost use Rattle.std.specs.Prelude.{◌≡◌};
ghost use Rattle.planner.specs.Ends.{amount};

use wires::terminal::Terminal;

#[derive(Clone, Copy, PartialEq, Eq, Debug)]
pub(crate) enum Side {
    Source,
    Sink,
}

impl Side {
    // What a row gives, or takes: a demand is a negated current.
    pub(crate) fn amount(self, row: Option<Terminal>) -> u32
        ensures { result ≡ amount self row }
    {
        let Some(terminal) = row else {
            return 0;
        };
        let current = i64::from(terminal.current);
        let amount = match self {
            Side::Source => current,
            Side::Sink => -current,
        };
        amount.max(0) as u32
    }
}
