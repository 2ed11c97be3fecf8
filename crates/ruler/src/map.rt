// A map of sites 1 to N, joined by one-way legs and by a ring; it keeps the shortest length of every pair.
ghost use Rattle.std.specs.Prelude.{◌≤◌};
ghost use Rattle.ruler.specs.Cells.{Capped, Detours, Still};

mod table;

pub use table::{Step, charted};

#[derive(Clone, Copy)]
pub struct Map {
    sites: u32,
    ring: u32,
    // From each place, the lengths to all places; site 1 has place 0.
    rows: [[u32; 64]; 64],
    ghost few: { sites ≤ 64 },
    ghost short: { ring ≤ 4000000 },
    ghost capped: { Capped ring rows },
    ghost still: { Still rows },
    ghost detour: { Detours rows },
}
