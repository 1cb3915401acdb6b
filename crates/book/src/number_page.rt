ghost use Rattle.std.specs.Prelude.{◌≡◌};
ghost use Rattle.book.specs.Numbers.{number_form};

use super::cell::Cell;
use super::page::Page;

// A page of numbers in lent 16-bit memory.
pub type NumberPage<'a> = Page<'a, u16, 1>;

// A number is its own cell.
impl Cell<1> for u16 {
    ghost form = { number_form };

    fn cells(number: u16) -> [u16; 1] {
        [number]
    }
}

impl<'a> Page<'a, u16, 1> {
    ghost use Rattle.book.specs.Pages.{AsPut, cells_of, list_of};

    // The numbers that were put.
    pub fn numbers(&self) -> &[u16]
        ensures list { result.now ≡ list_of number_form self.now }
        ensures part { result.now ≡ cells_of self.now }
        ensures put { AsPut number_form result.now self.now }
    {
        self.cells()
    }
}
