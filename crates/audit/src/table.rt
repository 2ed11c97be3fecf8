// The terminals of a net: a row for each id from 1 to 64, empty or with a terminal.
ghost use Rattle.std.specs.Prelude.{◌≡◌, ℕ, true, length, None, slice_index_or};
ghost use Rattle.audit.specs.Questions.{row_allowed};

use wires::terminal::Terminal;

mod audit;

#[derive(Clone, Copy)]
pub struct Table {
    pub rows: [Option<Terminal>; 64],
    ghost full: { length rows ≡ 64 },
    ghost ranged: { (k : ℕ) → row_allowed (slice_index_or rows k None) ≡ true },
}
