ghost use Rattle.tables.specs.Arrays.{grammar_of};
ghost use Rattle.tables.specs.NullableMarks.{NullableMarks};

use super::derive_words::derive_words;
use super::rules::Rules;

// Which codes are nullable: those that derive the list without words.
pub(crate) fn nullable(rules: &Rules) -> [bool; 88]
    ensures { NullableMarks (grammar_of rules.now) result }
{
    derive_words(rules, 0)
}
