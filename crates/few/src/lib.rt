// A list of at most `N` elements that lie in the value itself: it needs no memory from the heap, and
// is copied with what holds it.

#![tactic(auto)]

ghost use Rattle.std.specs.Prelude.{⊤, ◌≡◌, ◌<◌, ◌≤◌, [], ◌∷◌, ◌++◌, length, take, MatchOption};

use std::alloc::AllocError;

// The elements come first in the room; what lies behind them is not looked at.
#[derive(Copy)]
pub struct Few<T, const N: usize> {
    pub room: [T; N],
    pub count: usize,
    ghost size: { length room ≡ N },
    ghost within: { count ≤ N },
}

impl<T: Copy, const N: usize> Clone for Few<T, N> {
    ghost is_clone = { λ few copy. copy ≡ few };

    ghost is_infallible = { λ _. ⊤ };

    fn clone(&self) -> Result<Self, AllocError> {
        Ok(*self)
    }
}

impl<T: Copy + Default, const N: usize> Few<T, N> {
    ghost use Rattle.few.specs.Listed.{listed};

    // No elements.
    pub fn new() -> Few<T, N>
        ensures { listed result ≡ [] }
    {
        Few {
            room: [T::default(); N],
            count: 0,
        }
    }

    // These elements, or `None` where they are too many.
    pub fn of(elements: &[T]) -> Option<Few<T, N>>
        ensures { MatchOption result (N < length elements.now) (λ few. listed few ≡ elements.now) }
    {
        let count = elements.len();
        if count > N {
            return None;
        }
        let mut room = [T::default(); N];
        room[..count].copy_from_slice(elements);
        Some(Few { room, count })
    }
}

impl<T: Copy, const N: usize> Few<T, N> {
    ghost use Rattle.few.specs.Listed.{listed};

    pub fn as_slice(&self) -> &[T]
        ensures { result.now ≡ listed self.now }
    {
        &self.room[..self.count]
    }

    // One more element after the others; where there are `N` of them, it is let go.
    #[tactic(auto, using(std::proofs::lemmas::List::take_more_set))]
    pub fn push(&mut self, element: T)
        ensures pushed { listed self.new ≡ take N (listed self.old ++ element ∷ []) }
        ensures added { length (listed self.old) < N → listed self.new ≡ listed self.old ++ element ∷ [] }
        ensures full { N ≤ length (listed self.old) → self.new ≡ self.old }
    {
        if self.count < N {
            self.room[self.count] = element;
            self.count += 1;
        }
    }
}
