// The plane: site 65,536 × y + x, every site known, Manhattan length.
ghost use Rattle.std.specs.Prelude.{◌≡◌, ◌+◌, ◌*◌};
ghost use Rattle.ruler.specs.Plane.{plane};
ghost use Rattle.std.proofs.Common.{rules};

use crate::ruler::Ruler;

#[derive(Clone, Copy)]
pub struct Plane;

impl Plane {
    // The site at a point.
    pub fn site(x: u16, y: u16) -> u32
        ensures { result ≡ 65536 * y + x }
    {
        65_536 * u32::from(y) + u32::from(x)
    }
}

impl Ruler for Plane {
    ghost meaning = { λ _. plane };

    ghost metric = { Prim.search rules };

    fn known(&self, _site: u32) -> bool {
        true
    }

    fn length(&self, from: u32, to: u32) -> Option<u32> {
        let columns = (from % 65_536).abs_diff(to % 65_536);
        let rows = (from / 65_536).abs_diff(to / 65_536);
        Some(columns + rows)
    }
}
