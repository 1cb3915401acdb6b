ghost use Rattle.std.specs.Prelude.{◌≡◌, ℕ, ◌<◌, ◌≤◌, List, [], ◌∷◌, ◌++◌, drop, length, take};

use super::walk::PLACES;
use std::marker::Model;

// A stack of places, in an array with a count, and so with no heap.
// The walk reads the places from a height on where they lie, and cuts the stack off there; a bounded list only grows.
#[derive(Drop)]
pub(crate) struct Stack {
    places: [usize; PLACES],
    height: u16,
}

impl Model for Stack {
    ghost Value = { List ℕ };

    ghost view = { λ s. take s.height s.places };

    ghost invariant = { λ s. s.height ≤ 2304 };
}

impl Stack {
    // The empty stack.
    pub(crate) fn new() -> Stack
        ensures { result ≡ [] }
    {
        Stack {
            places: [0; PLACES],
            height: 0,
        }
    }

    // How many places are on the stack.
    pub(crate) fn height(&self) -> u16
        ensures { result ≡ length self.now }
    {
        self.height
    }

    // Puts a place on top.
    pub(crate) fn push(&mut self, place: usize)
        requires { length self.old < 2304 }
        ensures { self.new ≡ self.old ++ place ∷ [] }
    {
        self.places[usize::from(self.height)] = place;
        self.height += 1;
    }

    // The places from height `low` on.
    pub(crate) fn above(&self, low: u16) -> &[usize]
        requires { low ≤ length self.now }
        ensures { result.now ≡ drop low self.now }
    {
        &self.places[usize::from(low)..usize::from(self.height)]
    }

    // Takes the places from height `low` on off the stack.
    pub(crate) fn cut(&mut self, low: u16)
        requires { low ≤ length self.old }
        ensures { self.new ≡ take low self.old }
    {
        self.height = low;
    }
}
