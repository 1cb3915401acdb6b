// The relation reads: from a transition to those of the state behind it, by nullable nonterminals.
ghost use Rattle.std.specs.Prelude.{◌≡◌, ◌<◌};
ghost use Rattle.bounded.specs.BoundedList.{listed};
ghost use Rattle.tables.specs.ReadSteps.{FoundBelow, chosen, passes, reads_from};

use super::machine::Machine;
use bounded::BoundedList;
use gather::Relation;

// Numbers of nonterminals, by state.
pub(crate) type Numbers = [BoundedList<u8, 24>; 96];

// Whether the nonterminal of this number is nullable and leads on from a state.
fn leads_on(machine: &Machine, null: &[bool; 88], state: usize, number: u8) -> bool
    ensures { result ≡ passes machine.now.rules machine.now.states null.now state number }
{
    let code = usize::from(machine.rules.terminals) + 1 + usize::from(number);
    null.get(code) == Some(&true) && machine.goto(state, code).is_some()
}

// The numbers of the nonterminals that are nullable and lead on from a state.
fn leading(machine: &Machine, null: &[bool; 88], state: usize) -> BoundedList<u8, 24>
    ensures { listed result ≡ chosen machine.now.rules machine.now.states null.now state }
{
    let mut numbers = BoundedList::new(0);
    for number in 0..machine.rules.nonterminals {
        if leads_on(machine, null, state, number) {
            let pushed = numbers.push(number);
            prove!(pushed.is_ok());
        }
    }
    numbers
}

// These numbers for each state. They are found once, since each transition to a state asks for them.
#[inline(never)]
pub(crate) fn find_leading(machine: &Machine, null: &[bool; 88]) -> Numbers
    ensures { FoundBelow machine.now.rules machine.now.states null.now machine.now.states.count result }
{
    let mut found = [BoundedList::new(0); 96];
    for state in 0..machine.states.count {
        found[state] = leading(machine, null, state);
    }
    found
}

#[derive(Clone, Copy)]
pub struct Reads<'a> {
    pub machine: &'a Machine,
    pub null: &'a [bool; 88],
    pub(crate) found: &'a Numbers,
    ghost all: { FoundBelow machine.now.rules machine.now.states null.now machine.now.states.count found.now },
}

impl<'a> Relation for Reads<'a> {
    ghost targets = { λ s i. reads_from s.machine.now.rules s.machine.now.states s.null.now i };

    fn next(&self, place: usize, k: usize) -> Option<usize> {
        let state = self.machine.behind(place)?;
        let number = self.found[state].get(k)?;
        Some(24 * state + usize::from(number))
    }
}
