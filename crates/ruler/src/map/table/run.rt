// Runs of steps that make a map: a step is a value, so that a contract can speak of every run of them.
ghost use Rattle.ruler.specs.Chart.{Follows, Shows, blank, course};

use crate::map::Map;

#[derive(Clone, Copy)]
pub enum Step {
    Begin { sites: u32, ring: u32 },
    Leg { from: u32, to: u32, length: u32 },
}

impl Map {
    // A leg that is refused leaves the map as it was.
    fn attempt_leg(&mut self, from: u32, to: u32, length: u32)
        ensures { Follows self.old self.new (Step.Leg from to length) }
    {
        let _ = self.leg(from, to, length);
    }

    // Makes one step; a refused one leaves the map as it was.
    pub fn make(&mut self, step: Step)
        ensures { Follows self.old self.new step }
    {
        match step {
            Step::Begin { sites, ring } => {
                let _ = self.begin(sites, ring);
            }
            Step::Leg { from, to, length } => self.attempt_leg(from, to, length),
        }
    }
}

// The map after a run of steps.
#[tactic(auto, using(crate::proofs::Charts::charts_more))]
pub fn charted(steps: &[Step]) -> Map
    ensures { Shows result (course blank steps.now) }
{
    let mut map = Map::empty();
    for step in steps {
        map.make(*step);
    }
    map
}
