ghost use Rattle.std.specs.Prelude.{◌≡◌};
ghost use Rattle.book.specs.Decimals.{printed_form};

use super::cell::Cell;
use super::page::Page;

// A page of numbers in lent bytes, a line for each.
pub type PrintedPage<'a> = Page<'a, u8, 6>;

// A number is five decimal digits and a newline.
impl Cell<6> for u8 {
    ghost form = { printed_form };

    // No contract of `write!` says that it succeeds where there is room, so the digits are made here.
    fn cells(number: u16) -> [u8; 6] {
        let digit = |place: u16| b'0' + (number / place % 10) as u8;
        [
            digit(10000),
            digit(1000),
            digit(100),
            digit(10),
            digit(1),
            b'\n',
        ]
    }
}

impl<'a> Page<'a, u8, 6> {
    ghost use Rattle.book.specs.Pages.{AsPut, cells_of};

    // The bytes of the numbers that were put.
    pub fn bytes(&self) -> &[u8]
        ensures part { result.now ≡ cells_of self.now }
        ensures put { AsPut printed_form result.now self.now }
    {
        self.cells()
    }
}
