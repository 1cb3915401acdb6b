// The subject's own words: grammars, actions, and what refusals tell.
#![tactic(auto)]

mod action;
mod numbering;
#[cfg(test)]
mod tests;
mod theorems;

pub use action::Action;
pub use numbering::{lawful_states, not_crowded, numbered_states, one_numbering, one_outcome};
pub use theorems::{
    completeness, depth, judged_good, judged_rules, never_stuck, postorder, soundness, stepwise,
    taken, unambiguity, viable_prefix, word_taken,
};
