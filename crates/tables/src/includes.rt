// The relation includes: from a transition inside a right side, with only nullable codes behind it, to that of the left side.
ghost use Rattle.std.specs.Prelude.{◌≡◌, ◌+◌, ◌≤◌, [], slice_index};
ghost use Rattle.bounded.specs.BoundedList.{listed};
ghost use Rattle.grammar.specs.Lookahead.{Transition};
ghost use Rattle.tables.specs.Arrays.{automaton, grammar_of};
ghost use Rattle.tables.specs.IncludeSteps.{AllSteps, NullableFrom, StepsUpto, order};
ghost use Rattle.tables.specs.NullableMarks.{NullableMarks};

use super::machine::Machine;
use super::rules::Rules;
use super::step::{Step, Steps};

// That the marks are right is a `requires`, and no ghost field of a struct with the machine: such a field takes a fact that has at most one proof, and a nullable code has one for each of its trees.
// A truncated fact, `∥ .. ∥₁`, would say only that there are trees, and not give them out. The contracts here need the trees themselves: each listed step comes with those of the codes behind its dot.

// The loops over states and rules go by number: the machine is asked by both.

// The first dot from which on the rule's right side is nullable.
fn nullable_from(rules: &Rules, null: &[bool; 88], rule: usize) -> usize
    requires rule { (1 ≤ rule) × (rule ≤ rules.now.count) }
    requires marks { NullableMarks (grammar_of rules.now) null.now }
    ensures { NullableFrom (grammar_of rules.now) rule result }
{
    rules
        .codes(rule)
        .iter()
        .rposition(|code| null.get(usize::from(*code)) != Some(&true))
        .map_or(0, |dot| dot + 1)
}

// Lists the steps that a rule gives in a state that moves by the rule's left side.
fn steps_by_rule(machine: &Machine, null: &[bool; 88], state: usize, rule: usize, steps: &mut Steps)
    requires rule { (1 ≤ rule) × (rule ≤ machine.now.rules.count) }
    requires marks { NullableMarks (grammar_of machine.now.rules) null.now }
    requires to { Transition (grammar_of machine.now.rules) (automaton machine.now.rules machine.now.states) (state, slice_index machine.now.rules.left rule) }
    requires upto { StepsUpto machine.now.rules machine.now.states (order state rule 0) (listed steps.old) }
    ensures { StepsUpto machine.now.rules machine.now.states (order state (rule + 1) 0) (listed steps.new) }
{
    let end = nullable_from(&machine.rules, null, rule);
    let target = machine.place(state, machine.rules.left[rule]);
    let mut from = state;
    for (dot, &code) in machine.rules.codes(rule).iter().enumerate() {
        let Some(next) = machine.goto(from, usize::from(code)) else {
            return;
        };
        if end <= dot + 1 && machine.rules.terminals < code {
            let source = machine.place(from, code);
            // There is room for a step of each state, rule and dot.
            let pushed = steps.push(Step { source, target });
            prove!(pushed.is_ok());
        }
        from = next;
    }
}

// Lists the steps that the rules give in a state.
fn steps_by_state(machine: &Machine, null: &[bool; 88], state: usize, steps: &mut Steps)
    requires marks { NullableMarks (grammar_of machine.now.rules) null.now }
    requires upto { StepsUpto machine.now.rules machine.now.states (order state 1 0) (listed steps.old) }
    ensures { StepsUpto machine.now.rules machine.now.states (order (state + 1) 1 0) (listed steps.new) }
{
    for rule in 1..usize::from(machine.rules.count) + 1 {
        if machine
            .goto(state, usize::from(machine.rules.left[rule]))
            .is_some()
        {
            steps_by_rule(machine, null, state, rule, steps);
        }
    }
}

// Lists all steps of includes, in a list that the caller lends.
pub(crate) fn include_steps(machine: &Machine, null: &[bool; 88], steps: &mut Steps)
    requires marks { NullableMarks (grammar_of machine.now.rules) null.now }
    requires none { listed steps.old ≡ [] }
    ensures { AllSteps machine.now.rules machine.now.states (listed steps.new) }
{
    for state in 0..machine.states.count {
        steps_by_state(machine, null, state, steps);
    }
}
