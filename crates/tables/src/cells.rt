// The cells of all states, or the first conflict.
ghost use Rattle.std.specs.Prelude.{◌+◌, ◌*◌, ◌<◌};
ghost use Rattle.tables.specs.Cells.{Filled};
ghost use Rattle.tables.specs.Lookaheads.{Lookaheads};
ghost use Rattle.tables.specs.RowMeaning.{RowUpto};

use super::build_refusal::BuildRefusal;
use super::machine::Machine;
use super::row::Row;
use gather::{Join, WordSet};
use grammar::Action;

// The loops over rules and words go by number: the machine is asked by both, and the cells tell both.

// The shifts of a state, and the accept.
fn moves(machine: &Machine, state: usize) -> Row
    ensures { RowUpto machine.now.rules machine.now.states state 64 result }
{
    let mut row = Row {
        cells: [None; 64],
        conflict: None,
    };
    if machine.has_item(state, 0, 1) {
        row.cells[0] = Some(Action::Accept);
    }
    for word in 1..usize::from(machine.rules.terminals) + 1 {
        if let Some(target) = machine.goto(state, word) {
            row.cells[word] = Some(Action::Shift(target as u8));
        }
    }
    row
}

// The row of a state, with its reductions.
fn fill_row(machine: &Machine, lookaheads: &[[WordSet; 97]; 96], state: usize) -> Row
    requires state { state < machine.now.states.count }
    requires lookaheads { Lookaheads machine.now.rules machine.now.states lookaheads.now }
    ensures { RowUpto machine.now.rules machine.now.states state (64 * (machine.now.rules.count + 1)) result }
{
    let mut row = moves(machine, state);
    for rule in 1..machine.rules.count + 1 {
        let lookahead = lookaheads[state][usize::from(rule)];
        // Most rules are not complete in the state.
        if lookahead != WordSet::NONE {
            row.reduce(rule, lookahead, machine.rules.terminals + 1);
        }
    }
    row
}

// The cells by state and word, none where there is no action; or the first conflict.
#[inline(never)]
pub(crate) fn fill(
    machine: &Machine,
    lookaheads: &[[WordSet; 97]; 96],
) -> Result<[[Option<Action>; 64]; 96], BuildRefusal>
    requires { Lookaheads machine.now.rules machine.now.states lookaheads.now }
    ensures { Filled machine.now.rules machine.now.states result }
{
    let mut cells = [[None; 64]; 96];
    for (state, row) in cells[..machine.states.count].iter_mut().enumerate() {
        *row = fill_row(machine, lookaheads, state).settled(state as u8)?;
    }
    Ok(cells)
}
