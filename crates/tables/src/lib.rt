// From a rule sheet to its LALR(1) tables, stage by stage.
#![tactic(auto)]

mod build_refusal;
mod cells;
mod closure;
mod conflict;
mod derive_words;
mod direct;
mod full;
mod grouped;
mod grouping;
mod includes;
mod items;
mod limits;
mod lookahead;
mod lookup;
mod machine;
mod moves;
mod nullable;
mod numbering;
mod productive;
mod readings;
mod reads;
mod row;
mod rules;
mod states;
mod step;
mod tables;
mod useful;

pub use build_refusal::BuildRefusal;
pub use items::{Items, items_of};
pub use tables::Tables;
