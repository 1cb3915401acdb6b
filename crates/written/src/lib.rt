// Rule sheets that are written as text.
#![tactic(auto)]

mod draft;
mod form;
mod headless;
mod heads;
mod lexer;
mod names;
mod spellings;
mod tokens;
mod words;
mod written;
mod written_refusal;

pub use written::{WrittenSheet, one_opening};
pub use written_refusal::WrittenRefusal;
