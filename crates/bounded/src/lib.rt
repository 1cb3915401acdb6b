// A list of at most so many values, held in place without heap, and copied like its values.
// The kit's `arrayvec` is not `Copy`, and the public types that hold such lists are.
#![tactic(auto)]

mod bounded_list;
mod full;

pub use bounded_list::BoundedList;
pub use full::Full;
