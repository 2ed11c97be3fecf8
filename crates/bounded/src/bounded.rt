// A list of at most N items.
ghost use Rattle.std.specs.Prelude.{◌≡◌, ◌≤◌, length};

mod items;

pub struct Bounded<T, const N: usize> {
    // Past the count stands what fills the places not in use.
    places: [T; N],
    count: usize,
    ghost few: { count ≤ N },
    ghost full: { length places ≡ N },
}

impl<T: Copy, const N: usize> Copy for Bounded<T, N> {}
