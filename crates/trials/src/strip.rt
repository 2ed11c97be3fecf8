// A ruler that knows a hundred sites on a line, for the refusals that the plane cannot give.
ghost use Rattle.trials.specs.Strip.{strip};
ghost use Rattle.std.proofs.Common.{rules};

use ruler::ruler::Ruler;

#[derive(Clone, Copy)]
pub struct Strip;

impl Ruler for Strip {
    ghost meaning = { λ _. strip };

    ghost metric = { Prim.search rules };

    fn known(&self, site: u32) -> bool {
        site < 100
    }

    fn length(&self, from: u32, to: u32) -> Option<u32> {
        if from < 100 && to < 100 {
            Some(from.abs_diff(to))
        } else {
            None
        }
    }
}
