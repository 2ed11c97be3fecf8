// The table of a map: what it holds without legs, and how one leg more shortens it.
ghost use Rattle.std.specs.Prelude.{◌≡◌, ℕ, ◌+◌, ◌<◌, ◌≤◌, min, true, [], slice_index};
ghost use Rattle.ruler.specs.Cells.{Capped, Filled, Shortened, bare_at, knows, relaxed_at};
ghost use Rattle.ruler.specs.Map.{Lengthened, Stands, leg_of};

use crate::map::Map;

mod legs;
mod measure;
mod run;

pub use run::{Step, charted};

// Without legs a place is 0 from itself and the ring from any other.
fn clear(rows: &mut [[u32; 64]; 64], ring: u32)
    ensures { Filled (bare_at ring) rows.new }
{
    for (i, row) in rows.iter_mut().enumerate() {
        row.fill(ring);
        row[i] = 0;
    }
}

// The length before, or the one by way of a leg.
fn shorter(length: u32, there: u32, onward: u32) -> u32
    requires near { there ≤ 8000000 }
    requires short { onward ≤ 4000000 }
    ensures { result ≡ min length (there + onward) }
{
    length.min(there + onward)
}

// Shortens the lengths from a place, where a leg's end is `there` away and the lengths onward from it are given.
fn shorten_row(row: &mut [u32; 64], there: u32, onward: &[u32; 64])
    requires near { there ≤ 8000000 }
    requires short { (j : ℕ) → j < 64 → slice_index onward.now j ≤ 4000000 }
    ensures { Shortened there onward.now row.old row.new }
{
    for (j, length) in row.iter_mut().enumerate() {
        *length = shorter(*length, there, onward[j]);
    }
}

// Shortens all lengths by a leg. The row of its end is copied first, since it is written too.
fn shorten(rows: &mut [[u32; 64]; 64], from: usize, to: usize, length: u32)
    requires from { from < 64 }
    requires to { to < 64 }
    requires short { length ≤ 4000000 }
    requires capped { Capped 4000000 rows.old }
    ensures { Filled (relaxed_at rows.old from to length) rows.new }
{
    let onward = rows[to];
    for row in rows.iter_mut() {
        let there = row[from] + length;
        shorten_row(row, there, &onward);
    }
}

impl Map {
    fn knows(&self, site: u32) -> bool
        ensures { result ≡ knows self.now.sites site }
    {
        1 <= site && site <= self.sites
    }

    // A map without legs.
    fn bare(n: u32, ring: u32) -> Map
        requires few { n ≤ 64 }
        requires short { ring ≤ 4000000 }
        ensures { Stands result n ring [] }
    {
        let mut map = Map {
            sites: 0,
            ring: 0,
            rows: [[0; 64]; 64],
        };
        map.renew(n, ring);
        map
    }

    // Makes it a map of n sites without legs, in place: a table that is made apart is copied several times.
    fn renew(&mut self, n: u32, ring: u32)
        requires few { n ≤ 64 }
        requires short { ring ≤ 4000000 }
        ensures { Stands self.new n ring [] }
    {
        self.sites = n;
        self.ring = ring;
        clear(&mut self.rows, ring);
    }

    // Lays a leg between known sites.
    fn lay(&mut self, from: u32, to: u32, length: u32)
        requires from { knows self.old.sites from ≡ true }
        requires to { knows self.old.sites to ≡ true }
        requires short { length ≤ 4000000 }
        ensures { Lengthened self.old self.new (leg_of from to length) }
    {
        shorten(&mut self.rows, from as usize - 1, to as usize - 1, length);
    }
}
