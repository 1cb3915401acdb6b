// Numbers the states: states are taken by rising number and the codes of each by rising code, and a set met before keeps its number.
ghost use Rattle.std.specs.Prelude.{◌≡◌, ◌+◌, ◌≤◌, MatchResult};
ghost use Rattle.grammar.specs.StateLists.{Sofar, state_at};
ghost use Rattle.grammar.specs.States.{Numbered};
ghost use Rattle.tables.specs.Arrays.{automaton, grammar_of};
ghost use Rattle.tables.specs.Closing.{Waiting};
ghost use Rattle.tables.specs.EntryRows.{InRow};
ghost use Rattle.tables.specs.Numbering.{TooManyStates};

use super::build_refusal::BuildRefusal;
use super::closure::{complete, waiting};
use super::lookup::Lookup;
use super::moves::advance;
use super::rules::Rules;
use super::states::States;

// State 0: rule 0 with the dot in front, completed.
fn begin(rules: &Rules) -> Lookup
    ensures { Sofar (grammar_of rules.now) result.states.count result.states.sets result.states.gotos 0 1 }
{
    let mut items = [false; 873];
    items[0] = true;
    complete(rules, &mut items);
    Lookup::new(items, 9 * usize::from(rules.count) + 9)
}

// The entry of a state at a code; refused if a 97th state is needed.
fn entry(
    rules: &Rules,
    lookup: &mut Lookup,
    s: usize,
    from: &[bool; 873],
    ahead: &[bool; 88],
    code: u8,
) -> Result<(), BuildRefusal>
    requires waiting { Waiting rules.now from.now ahead.now }
    requires code { (1 ≤ code) × (code ≤ rules.now.terminals + rules.now.nonterminals) }
    requires row { InRow rules.now s from.now lookup.old.states code }
    ensures { MatchResult result
        (λ _. InRow rules.now s from.now lookup.new.states (code + 1))
        (λ e. TooManyStates rules.now e) }
{
    // 255 is nowhere, as `States` says.
    let mut to = 255;
    if ahead[usize::from(code)] {
        let mut items = advance(rules, from, code);
        complete(rules, &mut items);
        to = lookup.place(&items).ok_or(BuildRefusal::States)? as u8;
    }
    lookup.states.gotos[88 * s + usize::from(code)] = to;
    Ok(())
}

// The entries of a state; refused if a 97th state is needed.
fn row(rules: &Rules, lookup: &mut Lookup, s: usize) -> Result<(), BuildRefusal>
    requires { InRow rules.now s (state_at lookup.old.states.sets s) lookup.old.states 1 }
    ensures { let S = lookup.new.states in
        MatchResult result
        (λ _. Sofar (grammar_of rules.now) S.count S.sets S.gotos (s + 1) 1)
        (λ e. TooManyStates rules.now e) }
{
    let from = lookup.states.sets[s];
    let ahead = waiting(rules, &from);
    // By number: entries are made in the order of the codes.
    for code in 1..=rules.terminals + rules.nonterminals {
        entry(rules, lookup, s, &from, &ahead, code)?;
    }
    Ok(())
}

// The numbered states of the rules; refused if a 97th is needed.
#[inline(never)]
pub(crate) fn number(rules: &Rules) -> Result<States, BuildRefusal>
    ensures { MatchResult result
        (λ S. Numbered (grammar_of rules.now) S.count (automaton rules.now S))
        (λ e. TooManyStates rules.now e) }
{
    let mut lookup = begin(rules);
    let mut s = 0;
    // No `for`, since the entries of a state may add states.
    while s < lookup.states.count {
        row(rules, &mut lookup, s)?;
        s += 1;
    }
    Ok(lookup.states)
}
