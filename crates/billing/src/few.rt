// At most N items in a fixed place, without the heap. The ArrayVec of arrayvec is no `Copy`, and what holds these items is.
ghost use Rattle.std.specs.Prelude.{◌≡◌, ◌<◌, ◌≤◌, ◌↔◌, [], ◌∷◌, ◌++◌, length, take, IsOk, OnOk, OnErr, ⊤};

use std::alloc::AllocError;

// At most N items: the first `count` places hold them.
pub struct Few<T, const N: usize> {
    places: [T; N],
    count: usize,
    ghost few: { count ≤ N },
}

// Written out: `Clone` can't be derived on a struct with a type parameter and a ghost field.
impl<T: Copy, const N: usize> Copy for Few<T, N> {}

// A copy of all places.
impl<T: Copy, const N: usize> Clone for Few<T, N> {
    ghost is_clone = { λ x y. y ≡ x };

    ghost is_infallible = { λ _. ⊤ };

    fn clone(&self) -> Result<Few<T, N>, AllocError> {
        Ok(*self)
    }
}

// All places are taken.
#[derive(Clone, Copy, Debug, PartialEq, Eq)]
pub struct Full;

impl<T: Copy, const N: usize> Few<T, N> {
    ghost use Rattle.billing.specs.Few.{items_in};

    // No items; the blank fills the places.
    pub fn new(blank: T) -> Few<T, N>
        ensures { items_in result ≡ [] }
    {
        Few {
            places: [blank; N],
            count: 0,
        }
    }

    // The items.
    pub fn as_slice(&self) -> &[T]
        ensures items { result.now ≡ items_in self.now }
        ensures few { length result.now ≤ N }
    {
        &self.places[..self.count]
    }

    // One more item in front; where there would be more than N, the last goes.
    #[tactic(auto, using(crate::proofs::Fronts::fronted))]
    pub fn push_front(&mut self, item: T)
        ensures { items_in self.new ≡ take N (item ∷ items_in self.old) }
    {
        if N == 0 {
            return;
        }
        self.places.rotate_right(1);
        self.places[0] = item;
        if self.count < N {
            self.count += 1;
        }
    }

    // One more item at the end; where all places are taken, nothing changes.
    pub fn push(&mut self, item: T) -> Result<(), Full>
        ensures room { IsOk result ↔ (length (items_in self.old) < N) }
        ensures ok { OnOk result (items_in self.new ≡ items_in self.old ++ item ∷ []) }
        ensures full { OnErr result (self.new ≡ self.old) }
    {
        if self.count == N {
            return Err(Full);
        }
        self.places[self.count] = item;
        self.count += 1;
        Ok(())
    }
}
