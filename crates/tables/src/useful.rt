// Nonterminals that are of use: they derive words, and the start uses them.
ghost use Rattle.std.specs.Prelude.{◌≡◌, ◌+◌, ◌<◌, ◌≤◌, ◌==◌, Decides, MatchOption};
ghost use Rattle.std.specs.List.{list_any};
ghost use Rattle.grammar.specs.Outcome.{LowestUseless};
ghost use Rattle.tables.specs.AllUseful.{AllUseful};
ghost use Rattle.tables.specs.Arrays.{codes_at, grammar_of};
ghost use Rattle.tables.specs.CodeMarks.{Marked};
ghost use Rattle.tables.specs.UsedBy.{user_by, users};
ghost use Rattle.tables.specs.UsedMarks.{BothBelow, IsYes, LowestUnmarked, StartYes, UsedMarks};

use super::productive::productive;
use super::rules::Rules;
use gather::{Join, Mark, Relation, gather};

// Whether the code stands on the right of the rule.
fn stands_in(rules: &Rules, r: usize, code: usize) -> bool
    requires { r ≤ 96 }
    ensures { result ≡ list_any (λ c. c == code) (codes_at rules.now r) }
{
    rules.codes(r).iter().any(|&c| usize::from(c) == code)
}

// What uses the code by the rule: its left side, where the code stands on its right, and else only the code itself.
fn user(rules: &Rules, r: usize, code: usize) -> usize
    requires { r ≤ 96 }
    ensures { result ≡ user_by rules.now code r }
{
    if stands_in(rules, r, code) {
        usize::from(rules.left[r])
    } else {
        code
    }
}

// From each code to what uses it, by each rule in turn.
#[derive(Clone, Copy)]
struct UsedBy<'a> {
    rules: &'a Rules,
}

impl<'a> Relation for UsedBy<'a> {
    ghost targets = { λ s place. users s.rules.now place };

    fn next(&self, place: usize, k: usize) -> Option<usize> {
        if k >= usize::from(self.rules.count) {
            return None;
        }
        Some(user(self.rules, k + 1, place))
    }
}

// A mark at the start alone.
fn start_mark(rules: &Rules) -> [Mark; 88]
    ensures { StartYes rules.now result }
{
    let mut marks = [Mark::NONE; 88];
    marks[usize::from(rules.terminals) + 1] = Mark::from(true);
    marks
}

// Which codes the start uses.
fn used(rules: &Rules) -> [Mark; 88]
    ensures { UsedMarks (grammar_of rules.now) result }
{
    let mut marks = start_mark(rules);
    let gathered = gather(&mut marks, &UsedBy { rules });
    prove!(gathered.is_ok());
    marks
}

// Whether the code has both marks.
fn both_marked(productive: &[bool; 88], used: &[Mark; 88], code: u8) -> bool
    requires { code < 88 }
    ensures { Decides result (Marked productive.now code × IsYes used.now code) }
{
    productive[usize::from(code)] && bool::from(used[usize::from(code)])
}

// The lowest nonterminal that lacks one of the two marks.
fn lowest_unmarked(rules: &Rules, productive: &[bool; 88], used: &[Mark; 88]) -> Option<u8>
    ensures { MatchOption result (BothBelow rules.now productive.now used.now (rules.now.terminals + rules.now.nonterminals + 1)) (λ X. LowestUnmarked rules.now productive.now used.now X) }
{
    (rules.terminals + 1..rules.terminals + rules.nonterminals + 1).find(|&code| !both_marked(
        productive, used, code,
    ))
}

// The lowest nonterminal that derives no list of words, or that the start does not use.
pub(crate) fn useless(rules: &Rules) -> Option<u8>
    ensures { MatchOption result (AllUseful (grammar_of rules.now)) (λ X. LowestUseless (grammar_of rules.now) X) }
{
    lowest_unmarked(rules, &productive(rules), &used(rules))
}
