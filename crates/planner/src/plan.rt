// A plan: its wires by id, in their order, one mark for each id, and the area.
ghost use Rattle.std.specs.Prelude.{◌≡◌, length};

use bounded::bounded::Bounded;

// A planned wire, from a source's id to a sink's.
#[derive(Clone, Copy, PartialEq, Eq, Debug, Default)]
pub struct Link {
    pub from: u32,
    pub to: u32,
    pub current: u32,
}

#[derive(Clone, Copy)]
pub struct Plan {
    pub links: Bounded<Link, 1024>,
    pub marks: [u32; 64],
    pub area: u64,
    ghost full: { length marks ≡ 64 },
}
