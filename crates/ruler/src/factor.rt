// A factor from 1 to 16.
ghost use Rattle.std.specs.Prelude.{◌≤◌};

mod check;

#[derive(Clone, Copy)]
pub struct Factor {
    times: u32,
    ghost positive: { 1 ≤ times },
    ghost small: { times ≤ 16 },
}
