// Codes that derive lists of the first words, found in rounds over the rules.
ghost use Rattle.std.specs.Prelude.{◌≡◌, ◌+◌, ◌<◌, ◌≤◌, Decides, MatchOption};
ghost use Rattle.tables.specs.Arrays.{grammar_of};
ghost use Rattle.tables.specs.CodeMarks.{MarksOf};
ghost use Rattle.tables.specs.DeriveWords.{DerivesWords, Lacks, MarksBelow, NoneLacks, RightMarked};
ghost use Rattle.tables.specs.NullableMarks.{NullableMarks};
ghost use Rattle.tables.specs.ProductiveMarks.{ProductiveMarks};

use super::rules::Rules;

// Whether every code on the right of the rule is marked.
fn right_marked(rules: &Rules, marks: &[bool; 88], r: usize) -> bool
    requires { r ≤ 96 }
    ensures { Decides result (RightMarked rules.now marks.now r) }
{
    rules.codes(r).iter().all(|code| marks[usize::from(*code)])
}

// A rule whose right side is marked and whose left side is not.
fn lacking(rules: &Rules, marks: &[bool; 88]) -> Option<usize>
    ensures { MatchOption result (NoneLacks rules.now marks.now (rules.now.count + 1)) (λ q. Lacks rules.now marks.now q) }
{
    (1..usize::from(rules.count) + 1).find(|&r| !marks[usize::from(rules.left[r])]
        && right_marked(rules, marks, r))
}

// The codes from 1 to `words`.
fn first_codes(words: u8) -> [bool; 88]
    requires { words < 88 }
    ensures { MarksBelow (words + 1) result }
{
    let mut marks = [false; 88];
    for (code, mark) in marks.iter_mut().enumerate() {
        *mark = 1 <= code && code <= usize::from(words);
    }
    marks
}

// The codes that derive a list of words that are at most `words`: the nullable codes at 0, and the productive ones at all terminals.
// A round over the rules marks one nonterminal more, so that there are at most 25 rounds.
pub(crate) fn derive_words(rules: &Rules, words: u8) -> [bool; 88]
    requires { words ≤ rules.now.terminals }
    ensures exact { MarksOf (DerivesWords (grammar_of rules.now) words) result }
    ensures none { words ≡ 0 → NullableMarks (grammar_of rules.now) result }
    ensures all { words ≡ rules.now.terminals → ProductiveMarks (grammar_of rules.now) result }
{
    let mut marks = first_codes(words);
    while let Some(r) = lacking(rules, &marks) {
        marks[usize::from(rules.left[r])] = true;
    }
    marks
}
