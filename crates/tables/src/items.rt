// The items of one state of a sheet's machine, also where its cells conflict, so that no tables hold it.
ghost use Rattle.std.specs.Prelude.{◌≡◌};
ghost use Rattle.tables.specs.AllUseful.{AllUseful};
ghost use Rattle.tables.specs.Arrays.{grammar_of};
ghost use Rattle.tables.specs.Numbering.{UsefulNumbering};
ghost use Rattle.tables.specs.StateItems.{StateItems, has_item};

use super::limits::read;
use super::machine::{Machine, in_set};
use super::numbering::number;
use super::rules::Rules;
use super::useful::useless;
use sheet::RuleSheet;

// The items of one state, by item number: 9 * rule + dot.
#[derive(Drop)]
pub struct Items {
    set: [bool; 873],
}

impl Items {
    // Whether the item of a rule and a dot is among them.
    pub fn has(&self, rule: usize, dot: usize) -> bool
        ensures { result ≡ has_item self.now rule dot }
    {
        in_set(&self.set, rule, dot)
    }
}

// The items of a state of a machine.
#[tactic(auto, using(crate::proofs::StateItems::past_none, crate::proofs::StateItems::state_told))]
fn of_machine(machine: &Machine, state: usize) -> Option<Items>
    requires { UsefulNumbering machine.now.rules machine.now.states }
    ensures { StateItems (grammar_of machine.now.rules) state result }
{
    if state >= machine.states.count {
        return None;
    }
    Some(Items {
        set: machine.states.sets[state],
    })
}

// The items of a state of the machine of rules that are all of use.
fn of_useful(rules: Rules, state: usize) -> Option<Items>
    requires { AllUseful (grammar_of rules) }
    ensures { StateItems (grammar_of rules) state result }
{
    let states = number(&rules).ok()?;
    of_machine(&Machine { rules, states }, state)
}

// The items of a state of the machine of rules.
#[tactic(auto, using(crate::proofs::StateItems::useless_none, crate::proofs::StateItems::all_useful))]
fn of_rules(rules: Rules, state: usize) -> Option<Items>
    ensures { StateItems (grammar_of rules) state result }
{
    if useless(&rules).is_some() {
        return None;
    }
    of_useful(rules, state)
}

// The items of a state of a sheet's machine, whether or not its cells conflict; none where the sheet has no such state.
#[tactic(auto, using(crate::proofs::StateItems::unread_none))]
pub fn items_of<S: RuleSheet>(sheet: &S, state: usize) -> Option<Items>
    ensures { StateItems (S.RuleSheet.meaning sheet.now) state result }
{
    of_rules(read(sheet).ok()?, state)
}
