ghost use Rattle.std.specs.Prelude.{◌≡◌, ◌↔◌, ℕ, List, [], ◌∷◌, length, IsTrue};
ghost use Rattle.book.specs.Books.{Entered, Laws};

// A book, by the list of 16-bit numbers that it holds and the count of those that it still takes.
pub trait Book {
    // The numbers that the book holds, each put as 16 bits.
    ghost list: { Self → List ℕ };

    // How many more it takes.
    ghost free: { Self → ℕ };

    // The last is the first with these numbers added at its end. Each kind of book says here what
    // else stays as it was: of a page, the memory that it lies in, and all else in that.
    ghost grows: { Self → List ℕ → Self → Type 0 };

    // What holds of every book.
    ghost laws: { Laws list free grows };

    // How many numbers the book holds.
    fn len(&self) -> u32
        ensures { result ≡ length (list self.now) };

    // Whether the book holds no number.
    fn is_empty(&self) -> bool
        ensures { IsTrue result ↔ (list self.now ≡ []) }
    {
        self.len() == 0
    }

    // How many numbers are free.
    fn free(&self) -> u32
        ensures { result ≡ free self.now };

    // Adds the number at the end if one is free; else answers no, and nothing changes. The project's books answer yes or no.
    fn put(&mut self, number: u16) -> bool
        ensures { Entered list free grows self.old (number ∷ []) result self.new };
}
