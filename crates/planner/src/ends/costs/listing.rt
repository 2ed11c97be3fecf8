// A solved case, written down as a plan: its wires by id, in their order, its marks by row, and its area.
ghost use Rattle.planner.specs.Listing.{Solved};

use crate::ends::Ends;
use crate::plan::Link;
use bounded::bounded::Bounded;
use transport::case::Case;

mod laying;

pub use laying::plan_of;

#[derive(Clone, Copy)]
struct Solution<'a> {
    ends: Ends<'a>,
    case: &'a Case,
    plan: &'a transport::plan::Plan,
    ghost solved: { Solved case.now ends.sources.now ends.sinks.now plan.now },
}

// The wires so far, and their area.
#[derive(Clone, Copy)]
struct Draft {
    links: Bounded<Link, 1024>,
    area: u64,
}
