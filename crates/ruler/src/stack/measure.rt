// The stack as a ruler: site 268,435,456 × layer + 16,384 × y + x, every site known.
ghost use Rattle.std.specs.Prelude.{◌≡◌};
ghost use Rattle.ruler.specs.Stack.{stack, checked_via, via_of, point};
ghost use Rattle.ruler.specs.Stacked.{stack_metric};

use crate::refusal::Refusal;
use crate::ruler::Ruler;
use crate::stack::Stack;

impl Stack {
    // A stack whose vias are at most 1,000 long.
    pub fn new(via: u32) -> Result<Stack, Refusal>
        ensures { via_of result ≡ checked_via via }
    {
        if via <= 1000 {
            Ok(Stack { via })
        } else {
            Err(Refusal::ViaOutOfRange)
        }
    }

    // The site at a point, absent off the stack.
    pub fn site(layer: u32, x: u32, y: u32) -> Option<u32>
        ensures { result ≡ point layer x y }
    {
        if layer < 16 && x < 16_384 && y < 16_384 {
            Some(268_435_456 * layer + 16_384 * y + x)
        } else {
            None
        }
    }
}

impl Ruler for Stack {
    ghost meaning = { λ s. stack s.via };

    ghost metric = { λ r. stack_metric r.via r.short };

    fn known(&self, _site: u32) -> bool {
        true
    }

    fn length(&self, from: u32, to: u32) -> Option<u32> {
        let columns = (from % 16_384).abs_diff(to % 16_384);
        let rows = (from / 16_384 % 16_384).abs_diff(to / 16_384 % 16_384);
        let layers = (from / 268_435_456).abs_diff(to / 268_435_456);
        Some(columns + rows + self.via * layers)
    }
}
