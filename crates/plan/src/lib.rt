// A plan: eight designers' lines, a book, and the turns.
#![tactic(auto)]

mod entry;
mod lines;
mod plan;
mod request;
mod requests;
mod slip;
mod whole_line;
mod whole_lines;
mod worked;

pub use plan::Plan;
pub use request::{Asked, Reply, Request};
pub use requests::run;
pub use slip::Slip;
pub use whole_lines::{LineAsked, book_all};
pub use worked::worked_entry;
