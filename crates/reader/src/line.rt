// What a line of a file says, before any of its numbers is held against a limit.
mod number;

pub use number::read_line;

// p min N ARCS
#[derive(Clone, Copy, PartialEq, Eq, Debug)]
pub struct ProblemLine {
    pub is_min: bool,
    pub sites: u64,
    pub arcs: u64,
}

// n ID FLOW
#[derive(Clone, Copy, PartialEq, Eq, Debug)]
pub struct NodeLine {
    pub id: u64,
    pub flow: i64,
}

// a SRC DST LOW CAP COST
#[derive(Clone, Copy, PartialEq, Eq, Debug)]
pub struct ArcLine {
    pub from: u64,
    pub to: u64,
    pub low: u64,
    pub cap: u64,
    pub cost: u64,
}

#[derive(Clone, Copy, PartialEq, Eq, Debug)]
pub enum Line {
    Blank,
    Comment,
    Problem(ProblemLine),
    Node(NodeLine),
    Arc(ArcLine),
}
