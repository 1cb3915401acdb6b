ghost use Rattle.book.specs.Books.{Entered};

use super::book::Book;

// Puts all the numbers, or none where fewer are free. The project's books answer yes or no.
pub fn enter<B: Book>(book: &mut B, numbers: &[u16]) -> bool
    ensures { Entered B.list B.free B.grows book.old numbers.now result book.new }
{
    // Widened by `as`: there is no `usize::from(u32)`.
    if numbers.len() > book.free() as usize {
        return false;
    }
    for number in numbers {
        book.put(*number);
    }
    true
}
