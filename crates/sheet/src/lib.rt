// Rule sheets: what any sheet tells, and the kinds that are packed or made of another.
#![tactic(auto)]

mod add_refusal;
mod packed;
mod packed_refusal;
mod packing;
mod rule_sheet;
mod short_rule;
mod supplement;

pub use add_refusal::AddRefusal;
pub use packed::{PackedSheet, layout_laws};
pub use packed_refusal::PackedRefusal;
pub use packing::pack;
pub use rule_sheet::RuleSheet;
pub use short_rule::ShortRule;
pub use supplement::{Supplement, never_cut};
