// The map as a ruler.
ghost use Rattle.ruler.specs.Map.{mapped};
ghost use Rattle.std.proofs.Common.{rules};

use crate::map::Map;
use crate::ruler::Ruler;

impl Ruler for Map {
    ghost meaning = { mapped };

    ghost metric = { Prim.search rules };

    fn known(&self, site: u32) -> bool {
        self.knows(site)
    }

    fn length(&self, from: u32, to: u32) -> Option<u32> {
        if self.knows(from) && self.knows(to) {
            Some(self.rows[from as usize - 1][to as usize - 1])
        } else {
            None
        }
    }
}
