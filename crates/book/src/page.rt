ghost use Rattle.std.specs.Prelude.{◌≡◌};

use super::book::Book;
use super::cell::Cell;

// The most numbers that a page holds.
pub const PAGE_NUMBERS: usize = 65536;

// A page of numbers in lent memory, `WIDTH` cells for each. Nothing is allocated, so `used` counts the numbers put.
#[derive(Debug, Drop)]
pub struct Page<'a, C, const WIDTH: usize> {
    memory: &'a mut [C],
    used: usize,
}

impl<'a, C: Cell<WIDTH>, const WIDTH: usize> Page<'a, C, WIDTH> {
    ghost use Rattle.book.specs.Pages.{AsPut, Opened, capacity_of, cells_of, held_by};

    // An empty page in this memory, which stays as it is.
    pub fn open(memory: &'a mut [C]) -> Self
        ensures { Opened C.form memory.entry result }
    {
        Page { memory, used: 0 }
    }

    // The cells of the numbers that were put.
    pub(super) fn cells(&self) -> &[C]
        ensures part { result.now ≡ cells_of self.now }
        ensures put { AsPut C.form result.now self.now }
    {
        &self.memory[..WIDTH * self.held()]
    }

    // How many numbers the memory takes in all.
    fn capacity(&self) -> usize
        ensures { result ≡ capacity_of self.now }
    {
        (self.memory.len() / WIDTH).min(PAGE_NUMBERS)
    }

    // How many numbers the page holds. A ghost field could bound `used` instead, but functions that make arrays of such pages get no generated proof.
    fn held(&self) -> usize
        ensures { result ≡ held_by self.now }
    {
        self.used.min(self.capacity())
    }
}

impl<'a, C: Cell<WIDTH>, const WIDTH: usize> Book for Page<'a, C, WIDTH> {
    ghost use Rattle.book.specs.Pages.{Grows, free_of, list_of};
    ghost use Rattle.book.specs.PageLaws.{page_laws};

    ghost list = { list_of C.form };

    ghost free = { free_of };

    ghost grows = { Grows C.form };

    ghost laws = { page_laws C.form };

    fn len(&self) -> u32 {
        self.held() as u32
    }

    fn free(&self) -> u32 {
        (self.capacity() - self.held()) as u32
    }

    fn put(&mut self, number: u16) -> bool {
        if self.free() == 0 {
            return false;
        }
        let held = self.held();
        let at = WIDTH * held;
        self.memory[at..at + WIDTH].copy_from_slice(&C::cells(number));
        self.used = held + 1;
        true
    }
}
