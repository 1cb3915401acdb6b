// Rules with their numbered states, and how they lead from state to state.
ghost use Rattle.std.specs.Prelude.{◌≡◌, ◌<◌, ◌≤◌};
ghost use Rattle.grammar.specs.ItemLists.{items_of};
ghost use Rattle.grammar.specs.Lookahead.{Transition};
ghost use Rattle.tables.specs.Arrays.{automaton, grammar_of};
ghost use Rattle.tables.specs.Lookaheads.{WalkTold};
ghost use Rattle.tables.specs.Transitions.{place_of, transition_at};

use super::rules::Rules;
use super::states::States;

#[derive(Drop)]
pub struct Machine {
    pub rules: Rules,
    pub states: States,
}

// Whether a set has the item of a rule and a dot.
pub(crate) fn in_set(items: &[bool; 873], rule: usize, dot: usize) -> bool
    ensures { result ≡ items_of items.now rule dot }
{
    rule <= 96 && dot <= 8 && items[9 * rule + dot]
}

impl Machine {
    // The state to which a state leads by a code.
    pub(crate) fn goto(&self, state: usize, code: usize) -> Option<usize>
        ensures { result ≡ (automaton self.now.rules self.now.states).goto state code }
    {
        let codes = usize::from(self.rules.terminals + self.rules.nonterminals);
        if state >= self.states.count || code == 0 || code > codes {
            return None;
        }
        let target = usize::from(self.states.gotos[88 * state + code]);
        (target < self.states.count).then_some(target)
    }

    // Whether a state has the item of a rule and a dot.
    pub(crate) fn has_item(&self, state: usize, rule: usize, dot: usize) -> bool
        ensures { result ≡ (automaton self.now.rules self.now.states).has state rule dot }
    {
        state < self.states.count && in_set(&self.states.sets[state], rule, dot)
    }

    // The state behind the transition at a place.
    pub(crate) fn behind(&self, place: usize) -> Option<usize>
        ensures { result ≡ (automaton self.now.rules self.now.states).goto (transition_at self.now.rules place).0 (transition_at self.now.rules place).1 }
    {
        self.goto(
            place / 24,
            usize::from(self.rules.terminals) + 1 + place % 24,
        )
    }

    // The place of the transition of a state by a nonterminal.
    pub(crate) fn place(&self, state: usize, code: u8) -> u16
        requires { Transition (grammar_of self.now.rules) (automaton self.now.rules self.now.states) (state, code) }
        ensures is { result ≡ place_of self.now.rules state code }
        ensures inside { result < 2304 }
    {
        24 * state as u16 + u16::from(code - self.rules.terminals - 1)
    }

    // The state to which a rule's right side leads from a state.
    pub(crate) fn walk(&self, state: usize, rule: usize) -> Option<usize>
        requires { (1 ≤ rule) × (rule ≤ self.now.rules.count) }
        ensures { WalkTold self.now.rules self.now.states state rule result }
    {
        let mut at = state;
        for &code in self.rules.codes(rule) {
            at = self.goto(at, usize::from(code))?;
        }
        Some(at)
    }
}
