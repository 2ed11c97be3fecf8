// What a file says of a net: how many sites, the flow of each node, and the arcs between sites.

#[derive(Clone, Copy, PartialEq, Eq, Debug)]
pub struct Problem {
    pub sites: u32,
    pub arcs: u32,
}

#[derive(Clone, Copy, PartialEq, Eq, Debug, Default)]
pub struct Node {
    pub id: u32,
    pub flow: i32,
}

#[derive(Clone, Copy, PartialEq, Eq, Debug, Default)]
pub struct Arc {
    pub from: u32,
    pub to: u32,
    pub cost: u32,
}
