// The list and its items.
ghost use Rattle.std.specs.Prelude.{◌≡◌, ◌≤◌, length};

use std::alloc::AllocError;

// At most `N` items, of which the first `count` places of the array hold them in order. The kit's ArrayVec is no plain
// data: it can't be copied.
pub struct UpTo<T, const N: usize> {
    places: [T; N],
    count: usize,
    ghost few: { count ≤ N },
    ghost room: { length places ≡ N },
}

// A struct with an invariant over a type parameter derives no Clone.
impl<T: Copy, const N: usize> Clone for UpTo<T, N> {
    ghost is_clone = { λ l copy. copy ≡ l };

    ghost is_infallible = { λ _. Unit {0} };

    fn clone(&self) -> Result<Self, AllocError> {
        Ok(*self)
    }
}

impl<T: Copy, const N: usize> Copy for UpTo<T, N> {}

// More items than the list can hold.
#[derive(Clone, Copy, Debug, PartialEq)]
pub struct TooMany;

impl<T: Copy + Default, const N: usize> TryFrom<&[T]> for UpTo<T, N> {
    type Error = TooMany;

    ghost use Rattle.std.specs.Prelude.{◌≡◌, ◌<◌, length, MatchResult};
    ghost use Rattle.upto.specs.Listed.{listed};

    ghost try_from_gives = { λ items r. MatchResult r (λ l. (listed l ≡ items.now) × (length items.now ≤ N)) (λ _. N < length items.now) };

    fn try_from(items: &[T]) -> Result<Self, TooMany> {
        let count = items.len();
        if count > N {
            return Err(TooMany);
        }
        let mut places = [T::default(); N];
        places[..count].copy_from_slice(items);
        Ok(UpTo { places, count })
    }
}

// A list without items.
impl<T: Copy + Default, const N: usize> Default for UpTo<T, N> {
    ghost use Rattle.std.specs.Prelude.{◌≡◌, []};
    ghost use Rattle.upto.specs.Listed.{listed};

    ghost is_default = { λ l. listed l ≡ [] };

    fn default() -> Self {
        UpTo {
            places: [T::default(); N],
            count: 0,
        }
    }
}

impl<T, const N: usize> UpTo<T, N> {
    ghost use Rattle.std.specs.Prelude.{◌≡◌, ◌<◌, ◌≤◌, [], ◌∷◌, ◌++◌, length, IsOk, OnOk, OnErr, ◌↔◌};
    ghost use Rattle.upto.specs.Listed.{listed};

    // Appends an item; where there is no room for it, the list stays as it was.
    pub fn push(&mut self, item: T) -> Result<(), TooMany>
    where
        T: Copy,
        ensures room { IsOk result ↔ (length (listed self.old) < N) }
        ensures items { OnOk result (listed self.new ≡ listed self.old ++ item ∷ []) }
        ensures full { OnErr result (self.new ≡ self.old) }
    {
        if self.count == N {
            return Err(TooMany);
        }
        self.places[self.count] = item;
        self.count += 1;
        Ok(())
    }

    // The items, in order.
    pub fn as_slice(&self) -> &[T]
        ensures items { result.now ≡ listed self.now }
        ensures few { length result.now ≤ N }
    {
        &self.places[..self.count]
    }
}
