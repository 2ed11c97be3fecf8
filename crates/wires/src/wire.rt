// A wire is as wide as its current, so its area is current × length.
#[derive(Clone, Copy, PartialEq, Eq, Debug)]
pub struct Wire {
    pub start: u32,
    pub end: u32,
    pub current: u32,
}
