// What the maker of a written sheet is told, in plain words, when it does not open.
#![tactic(auto)]

mod explanation;
mod position;

pub use explanation::Explanation;
pub use position::Position;
