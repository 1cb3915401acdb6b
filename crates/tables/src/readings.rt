// What tables tell.
ghost use Rattle.tables.specs.Arrays.{grammar_of};
ghost use Rattle.tables.specs.Building.{held};
ghost use Rattle.tables.specs.HeldReadings.{cell_of, goto_of, has_of, if_rule, is_blank, left_of, length_of, nonterminal_count, rule_count, state_count, terminal_count};
ghost use Rattle.std.specs.Prelude.{◌≡◌, ℕ, ◌≤◌, slice_index};

use super::rules::Rules;
use super::tables::Tables;
use grammar::Action;

// What an array has for a rule; none outside the rule numbers.
fn of_rule(rules: &Rules, rule: usize, values: &[u8; 97]) -> Option<u8>
    ensures { (x : ℕ) → (1 ≤ rule → rule ≤ rules.now.count → slice_index values.now rule ≡ x) → result ≡ if_rule (grammar_of rules.now) rule x }
{
    if rule == 0 || rule > usize::from(rules.count) {
        return None;
    }
    Some(values[rule])
}

impl Tables {
    // Whether nothing is held.
    pub fn is_blank(&self) -> bool
        ensures { result ≡ is_blank (held self.now) }
    {
        self.full.is_none()
    }

    // The readings below differ in the field or method that they name, and have nothing else: a common function would have to be given just that.

    // The number of states; 0 for blank tables.
    pub fn states(&self) -> usize
        ensures { result ≡ state_count (held self.now) }
    {
        self.full
            .as_ref()
            .map_or(0, |full| full.machine.states.count)
    }

    // The number of terminals; 0 for blank tables.
    #[tactic(auto, unfolding(crate::specs::Arrays::grammar_of))]
    pub fn terminals(&self) -> u8
        ensures { result ≡ terminal_count (held self.now) }
    {
        self.full
            .as_ref()
            .map_or(0, |full| full.machine.rules.terminals)
    }

    // The number of nonterminals; 0 for blank tables.
    #[tactic(auto, unfolding(crate::specs::Arrays::grammar_of))]
    pub fn nonterminals(&self) -> u8
        ensures { result ≡ nonterminal_count (held self.now) }
    {
        self.full
            .as_ref()
            .map_or(0, |full| full.machine.rules.nonterminals)
    }

    // The number of rules; 0 for blank tables.
    #[tactic(auto, using(crate::proofs::RuleArrays::rules_count))]
    pub fn rules(&self) -> u8
        ensures { result ≡ rule_count (held self.now) }
    {
        self.full
            .as_ref()
            .map_or(0, |full| full.machine.rules.count)
    }

    // The left side of a rule.
    pub fn left(&self, rule: usize) -> Option<u8>
        ensures { result ≡ left_of (held self.now) rule }
    {
        let rules = &self.full.as_ref()?.machine.rules;
        of_rule(rules, rule, &rules.left)
    }

    // How long the right side of a rule is.
    pub fn length(&self, rule: usize) -> Option<u8>
        ensures { result ≡ length_of (held self.now) rule }
    {
        let rules = &self.full.as_ref()?.machine.rules;
        of_rule(rules, rule, &rules.size)
    }

    // Whether a state has the item of a rule and a dot.
    pub fn has_item(&self, state: usize, rule: usize, dot: usize) -> bool
        ensures { result ≡ has_of (held self.now) state rule dot }
    {
        self.full
            .as_ref()
            .is_some_and(|full| full.machine.has_item(state, rule, dot))
    }

    // What the cell of a state and a word holds.
    pub fn cell(&self, state: usize, word: usize) -> Option<Action>
        ensures { result ≡ cell_of (held self.now) state word }
    {
        *self.full.as_ref()?.cells.get(state)?.get(word)?
    }

    // Where a code leads from a state.
    pub fn goto(&self, state: usize, code: usize) -> Option<usize>
        ensures { result ≡ goto_of (held self.now) state code }
    {
        self.full.as_ref()?.machine.goto(state, code)
    }
}
