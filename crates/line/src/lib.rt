// A designer's line, and its turns: a word brought to it, and its judging.
#![tactic(auto)]

mod line;
mod machine;
mod readings;
mod stack;
mod status;
mod trial;
mod turn_refusal;
mod turns;

pub use line::Line;
pub use status::Status;
pub use turn_refusal::TurnRefusal;
