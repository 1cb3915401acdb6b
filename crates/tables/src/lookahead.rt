// The lookahead of each rule in each state.
ghost use Rattle.std.specs.Prelude.{◌≡◌, ◌+◌, ◌*◌, ◌≤◌, replicate};
ghost use Rattle.gather.specs.Members.{no_members};
ghost use Rattle.tables.specs.Arrays.{grammar_of};
ghost use Rattle.tables.specs.Groups.{IncludesGrouped};
ghost use Rattle.tables.specs.Lookaheads.{Lookaheads, LookaheadsUpto};
ghost use Rattle.tables.specs.NullableMarks.{NullableMarks};
ghost use Rattle.tables.specs.Transitions.{FollowAt};
ghost use Rattle.tables.specs.WordSets.{SetsOf};

use super::direct::direct_by_place;
use super::grouped::Grouped;
use super::includes::include_steps;
use super::machine::Machine;
use super::nullable::nullable;
use super::reads::{Reads, find_leading};
use super::step::Step;
use bounded::BoundedList;
use gather::{Join, WordSet, gather};

// The loops go by the numbers of states and rules: the machine is asked by both, and the sets go by both.

// Groups the steps of includes. Their list is the longest of a build's arrays, and gone when this ends.
#[inline(never)]
fn group_includes(machine: &Machine, null: &[bool; 88], groups: &mut Grouped)
    requires { NullableMarks (grammar_of machine.now.rules) null.now }
    ensures { IncludesGrouped machine.now.rules machine.now.states groups.new }
{
    let mut steps = BoundedList::new(Step {
        source: 0,
        target: 0,
    });
    include_steps(machine, null, &mut steps);
    groups.group(&steps);
}

// The follow sets, by place: direct words gathered along reads are read sets, and those along includes are follow sets.
#[inline(never)]
fn gathered_sets(machine: &Machine, null: &[bool; 88], includes: &Grouped) -> [WordSet; 2304]
    requires marks { NullableMarks (grammar_of machine.now.rules) null.now }
    requires includes { IncludesGrouped machine.now.rules machine.now.states includes.now }
    ensures { SetsOf (FollowAt machine.now.rules machine.now.states) 2304 result }
{
    let mut sets = direct_by_place(machine);
    let found = find_leading(machine, null);
    let reads = Reads {
        machine,
        null,
        found: &found,
    };
    let gathered = gather(&mut sets, &reads);
    prove!(gathered.is_ok());
    let gathered = gather(&mut sets, includes);
    prove!(gathered.is_ok());
    sets
}

// The follow sets of all transitions, by place.
#[inline(never)]
pub(crate) fn follow_sets(machine: &Machine) -> [WordSet; 2304]
    ensures { SetsOf (FollowAt machine.now.rules machine.now.states) 2304 result }
{
    let null = nullable(&machine.rules);
    let mut includes = Grouped::new();
    group_includes(machine, &null, &mut includes);
    gathered_sets(machine, &null, &includes)
}

// Joins the follow set of a rule's left side in a state into the lookahead of the rule where its
// right side ends.
fn add_follow(
    machine: &Machine,
    follow: &[WordSet; 2304],
    state: usize,
    rule: usize,
    sets: &mut [[WordSet; 97]; 96],
)
    requires rule { (1 ≤ rule) × (rule ≤ machine.now.rules.count) }
    requires follow { SetsOf (FollowAt machine.now.rules machine.now.states) 2304 follow.now }
    requires upto { LookaheadsUpto machine.now.rules machine.now.states (97 * state + rule) sets.old }
    ensures { LookaheadsUpto machine.now.rules machine.now.states (97 * state + (rule + 1)) sets.new }
{
    let left = machine.rules.left[rule];
    if machine.goto(state, usize::from(left)).is_some() {
        if let Some(end) = machine.walk(state, rule) {
            let words = follow[usize::from(machine.place(state, left))];
            sets[end][rule] = sets[end][rule].join(words);
        }
    }
}

// Joins in what comes from the rules in a state.
fn add_follows(
    machine: &Machine,
    follow: &[WordSet; 2304],
    state: usize,
    sets: &mut [[WordSet; 97]; 96],
)
    requires follow { SetsOf (FollowAt machine.now.rules machine.now.states) 2304 follow.now }
    requires upto { LookaheadsUpto machine.now.rules machine.now.states (97 * state + 1) sets.old }
    ensures { LookaheadsUpto machine.now.rules machine.now.states (97 * (state + 1) + 1) sets.new }
{
    for rule in 1..usize::from(machine.rules.count) + 1 {
        add_follow(machine, follow, state, rule, sets);
    }
}

// Joins the lookaheads by state and rule into sets that the caller lends, which have no members.
// A rule that is not complete in a state has none there.
#[inline(never)]
pub(crate) fn look_ahead(
    machine: &Machine,
    follow: &[WordSet; 2304],
    sets: &mut [[WordSet; 97]; 96],
)
    requires follow { SetsOf (FollowAt machine.now.rules machine.now.states) 2304 follow.now }
    requires none { sets.old ≡ replicate 96 (replicate 97 no_members) }
    ensures { Lookaheads machine.now.rules machine.now.states sets.new }
{
    for state in 0..machine.states.count {
        add_follows(machine, follow, state, sets);
    }
}
