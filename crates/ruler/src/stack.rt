// The stack: sixteen planes above one another, joined by vias of one length.
ghost use Rattle.std.specs.Prelude.{◌≤◌};

mod measure;

#[derive(Clone, Copy)]
pub struct Stack {
    via: u32,
    ghost short: { via ≤ 1000 },
}
