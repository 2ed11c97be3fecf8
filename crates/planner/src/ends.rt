// The ends of a net's wires: the places of its sources, and those of its sinks, in ascending order.
ghost use Rattle.std.specs.Prelude.{◌≡◌};
ghost use Rattle.planner.specs.Ends.{gathered};
ghost use Rattle.planner.specs.declared.side.Side.TheVariants.{Source, Sink};

use audit::table::Table;

mod costs;
mod gathering;

pub use costs::plan_of;

#[derive(Clone, Copy)]
struct Ends<'a> {
    table: &'a Table,
    sources: &'a [usize],
    sinks: &'a [usize],
    ghost gives: { sources.now ≡ gathered table.now.rows Source 64 },
    ghost takes: { sinks.now ≡ gathered table.now.rows Sink 64 },
}
