// A book takes 16-bit numbers at its end until no more are free; its pages are lent memory.
#![tactic(auto)]

mod book;
mod cell;
mod entry;
mod number_page;
mod page;
mod printed_page;

pub use book::Book;
pub use entry::enter;
pub use number_page::NumberPage;
pub use page::{PAGE_NUMBERS, Page};
pub use printed_page::PrintedPage;

#[cfg(test)]
mod tests;
