// The area of a list of wires, and what it says of every other list.
ghost use Rattle.std.specs.Prelude.{◌≡◌, ℕ, Some};
ghost use Rattle.wires.specs.Duality.{Bounded, Certified, Complete};
ghost use Rattle.wires.specs.Wiring.{measured_area};

use crate::wire::Wire;
use ruler::ruler::Ruler;

// The list's area, absent where one of its sites is unknown. It is at least the value of any feasible marks on the
// terminals that the list meets; where it equals their value the list is least; and every least list has such marks.
pub fn area_of<R: Ruler>(ruler: &R, wires: &[Wire]) -> Option<u128>
    ensures answer { result ≡ measured_area (R.meaning ruler.now) wires.now }
    ensures bounded { (a : ℕ) → result ≡ Some a → Bounded (R.meaning ruler.now) wires.now a }
    ensures certified { (a : ℕ) → result ≡ Some a → Certified (R.meaning ruler.now) wires.now a }
    ensures complete { (a : ℕ) → result ≡ Some a → Complete (R.meaning ruler.now) wires.now a }
{
    let mut area: u128 = 0;
    for wire in wires {
        let length = ruler.length(wire.start, wire.end)?;
        area += u128::from(wire.current) * u128::from(length);
    }
    Some(area)
}
