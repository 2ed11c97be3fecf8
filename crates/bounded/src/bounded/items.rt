// The calls of a list, by the items that it has.
ghost use Rattle.std.specs.Prelude.{◌≡◌, ◌<◌, ◌≤◌, ⊤, [], ◌∷◌, ◌++◌, length, if◌then◌else◌, nat_lt, Ok, Err};
ghost use Rattle.bounded.specs.Items.{items};

use crate::bounded::Bounded;
use std::alloc::AllocError;

impl<T: Copy + Default, const N: usize> Bounded<T, N> {
    // A list without items.
    pub fn new() -> Self
        ensures { items result ≡ [] }
    {
        Bounded {
            places: [T::default(); N],
            count: 0,
        }
    }
}

impl<T: Copy, const N: usize> Bounded<T, N> {
    pub fn as_slice(&self) -> &[T]
        ensures value { result.now ≡ items self.now }
        ensures bound { length result.now ≤ N }
    {
        &self.places[..self.count]
    }

    // One item more at the end; a full list stays as it is, and hands the item back.
    pub fn push(&mut self, item: T) -> Result<(), T>
        ensures answer { result ≡ (if nat_lt (length (items self.old)) N then Ok tt else Err item) }
        ensures room { length (items self.old) < N → items self.new ≡ items self.old ++ item ∷ [] }
        ensures full { N ≤ length (items self.old) → self.new ≡ self.old }
    {
        if self.count == N {
            return Err(item);
        }
        self.places[self.count] = item;
        self.count += 1;
        Ok(())
    }
}

impl<T: Copy, const N: usize> Clone for Bounded<T, N> {
    ghost is_clone = { λ old new. new ≡ old };

    ghost is_infallible = { λ _. ⊤ };

    fn clone(&self) -> Result<Self, AllocError> {
        Ok(*self)
    }
}
