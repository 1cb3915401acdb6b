ghost use Rattle.std.specs.Prelude.{◌≡◌};
ghost use Rattle.book.specs.Forms.{Form};

// What the memory of a page is made of: a number fills `WIDTH` cells.
pub trait Cell<const WIDTH: usize>: Copy {
    // How numbers stand in the cells.
    ghost form: { Form Self WIDTH };

    // The cells of a number.
    fn cells(number: u16) -> [Self; WIDTH]
        ensures { result ≡ form.cells number };
}
