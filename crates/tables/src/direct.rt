// The words that can come right behind a transition.
ghost use Rattle.tables.specs.Transitions.{DirectAt, DirectIn};
ghost use Rattle.tables.specs.WordSets.{SetsOf, WordsBelow};

use super::machine::Machine;
use gather::{Join, WordSet};

// The words by which a state moves, and the end mark where rule 0 has its dot before it.
fn direct_words(machine: &Machine, state: usize) -> WordSet
    ensures { WordsBelow (DirectIn machine.now.rules machine.now.states state) 64 result }
{
    let mut words = if machine.has_item(state, 0, 1) {
        WordSet::one(0)
    } else {
        WordSet::NONE
    };
    // By number: the state is asked by the word, and the word becomes the member.
    for word in 1..usize::from(machine.rules.terminals) + 1 {
        if machine.goto(state, word).is_some() {
            words = words.union(WordSet::one(word));
        }
    }
    words
}

// The direct words of all states.
fn direct_by_state(machine: &Machine) -> [WordSet; 96]
    ensures { SetsOf (DirectIn machine.now.rules machine.now.states) 96 result }
{
    let mut sets = [WordSet::NONE; 96];
    for (state, words) in sets.iter_mut().enumerate() {
        *words = direct_words(machine, state);
    }
    sets
}

// The direct words behind the transition at a place; none where there is no transition.
fn direct_behind(machine: &Machine, direct: &[WordSet; 96], place: usize) -> WordSet
    requires { SetsOf (DirectIn machine.now.rules machine.now.states) 96 direct.now }
    ensures { WordsBelow (DirectAt machine.now.rules machine.now.states place) 64 result }
{
    machine
        .behind(place)
        .map_or(WordSet::NONE, |state| direct[state])
}

// The direct words behind all transitions, by place.
pub(crate) fn direct_by_place(machine: &Machine) -> [WordSet; 2304]
    ensures { SetsOf (DirectAt machine.now.rules machine.now.states) 2304 result }
{
    let direct = direct_by_state(machine);
    let mut sets = [WordSet::NONE; 2304];
    for (place, words) in sets.iter_mut().enumerate() {
        *words = direct_behind(machine, &direct, place);
    }
    sets
}
