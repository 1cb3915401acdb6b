ghost use Rattle.std.specs.List.{slice_get};
ghost use Rattle.std.specs.Prelude.{◌≡◌, ◌+◌, ◌<◌, ◌≤◌, ◌↔◌, ⊤, IsOk, IsTrue, OnErr, OnOk, [], ◌∷◌, ◌++◌, length};

use super::full::Full;
use std::alloc::AllocError;

// At most N values in order, in the first places of an array.
pub struct BoundedList<T, const N: usize> {
    items: [T; N],
    count: usize,
    ghost within: { count ≤ N },
    ghost room: { length items ≡ N },
}

// Written out, since `Clone` cannot be derived over a ghost field of a generic struct.
impl<T: Copy, const N: usize> Copy for BoundedList<T, N> {}

impl<T: Copy, const N: usize> Clone for BoundedList<T, N> {
    ghost is_clone = { λ s r. r ≡ s };

    ghost is_infallible = { λ _. ⊤ };

    fn clone(&self) -> Result<Self, AllocError> {
        Ok(*self)
    }
}

impl<T: Copy, const N: usize> BoundedList<T, N> {
    ghost use Rattle.bounded.specs.BoundedList.{listed};

    // No value yet; the blank one fills the places that are not in use.
    pub fn new(blank: T) -> Self
        ensures { listed result ≡ [] }
    {
        BoundedList {
            items: [blank; N],
            count: 0,
        }
    }

    pub fn len(&self) -> usize
        ensures value { result ≡ length (listed self.now) }
        ensures few { result ≤ N }
    {
        self.as_slice().len()
    }

    pub fn is_empty(&self) -> bool
        ensures { IsTrue result ↔ (listed self.now ≡ []) }
    {
        self.count == 0
    }

    pub fn is_full(&self) -> bool
        ensures { IsTrue result ↔ (length (listed self.now) ≡ N) }
    {
        self.count == N
    }

    // The value at a place, from 0.
    pub fn get(&self, place: usize) -> Option<T>
        ensures { result ≡ slice_get (listed self.now) place }
    {
        self.as_slice().get(place).copied()
    }

    pub fn as_slice(&self) -> &[T]
        ensures { result.now ≡ listed self.now }
    {
        &self.items[..self.count]
    }

    // One more value behind the others, or none where there is no room.
    pub fn push(&mut self, item: T) -> Result<(), Full>
        ensures room { IsOk result ↔ (length (listed self.old) < N) }
        ensures pushed { OnOk result (listed self.new ≡ listed self.old ++ item ∷ []) }
        ensures unchanged { OnErr result (self.new ≡ self.old) }
    {
        if self.is_full() {
            return Err(Full);
        }
        self.items[self.count] = item;
        self.count += 1;
        Ok(())
    }

    // These values behind the others, or none of them where there is no room for all.
    pub fn extend_from_slice(&mut self, items: &[T]) -> Result<(), Full>
        ensures room { IsOk result ↔ (length (listed self.old) + length items.now ≤ N) }
        ensures pushed { OnOk result (listed self.new ≡ listed self.old ++ items.now) }
        ensures unchanged { OnErr result (self.new ≡ self.old) }
    {
        if items.len() > N - self.count {
            return Err(Full);
        }
        let end = self.count + items.len();
        let held = &mut self.items[..];
        held[self.count..end].copy_from_slice(items);
        self.count = end;
        Ok(())
    }
}
