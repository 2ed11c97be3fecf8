// What is settled so far: the marks, and the flow with what is left.
ghost use Rattle.std.specs.Prelude.{◌≤◌};
ghost use Rattle.transport.specs.Solver.{Limited, Marked, Tied, Summed, Neediest};

use crate::case::Case;

mod tree;

pub use tree::solve;

// A sink's mark less a source's mark never exceeds the cost between them. Marks only rise.
#[derive(Clone, Copy)]
struct Marks {
    source: [u32; 64],
    sink: [u32; 64],
}

// The flow, flat as in the plan that it becomes, what each source still has, and what each sink still wants.
#[derive(Clone, Copy)]
struct Load {
    flow: [u32; 4096],
    stock: [u32; 64],
    want: [u32; 64],
}

// A case within the limits with what is settled of it.
#[derive(Clone, Copy)]
struct Market<'a> {
    case: &'a Case,
    marks: Marks,
    load: Load,
    ghost limited: { Limited case.now },
    ghost marked: { Marked case.now marks },
    ghost tied: { Tied case.now marks load },
    ghost summed: { Summed case.now load },
}

// The sink that wants most, absent where none wants anything: to serve it first keeps the phases few.
fn neediest(want: &[u32]) -> Option<usize>
    ensures { Neediest want.now result }
{
    let mut found = None;
    let mut most = 0;
    for (j, &want) in want.iter().enumerate() {
        if want > most {
            most = want;
            found = Some(j);
        }
    }
    found
}
