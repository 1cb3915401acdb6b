ghost use Rattle.tables.specs.Arrays.{grammar_of};
ghost use Rattle.tables.specs.ProductiveMarks.{ProductiveMarks};

use super::derive_words::derive_words;
use super::rules::Rules;

// Which codes are productive: terminals, and nonterminals that derive some list of words.
pub(crate) fn productive(rules: &Rules) -> [bool; 88]
    ensures { ProductiveMarks (grammar_of rules.now) result }
{
    derive_words(rules, rules.terminals)
}
