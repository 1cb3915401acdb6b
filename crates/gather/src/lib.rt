// Gathering: each place of a list ends with the join of its own seed and the seeds of all places that it reaches.
#![tactic(auto)]

mod gathering;
mod join;
mod mark;
mod relation;
mod stack;
#[cfg(test)]
mod tests;
mod theorems;
mod visit;
mod walk;
mod word_set;

pub use gathering::{TooManyPlaces, gather};
pub use join::Join;
pub use mark::Mark;
pub use relation::Relation;
pub use theorems::{gathered_once, marks_reached, members_reached, sets_by_members};
pub use walk::PLACES;
pub use word_set::WordSet;
