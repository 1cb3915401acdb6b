// Tables: blank, or rules with exactly their tables.
ghost use Rattle.tables.specs.Arrays.{grammar_of};
ghost use Rattle.tables.specs.Building.{BuiltFrom, NumberedFrom, OnlyBuild, Tabled, held};
ghost use Rattle.tables.specs.Cells.{Filled};
ghost use Rattle.tables.specs.Transitions.{FollowAt};
ghost use Rattle.tables.specs.WordSets.{SetsOf};
ghost use Rattle.tables.specs.Held.{Exactly, Held};
ghost use Rattle.std.specs.Prelude.{◌≡◌};

use super::build_refusal::BuildRefusal;
use super::cells::fill;
use super::full::Full;
use super::limits::read;
use super::lookahead::{follow_sets, look_ahead};
use super::machine::Machine;
use super::numbering::number;
use super::rules::Rules;
use super::states::States;
use super::useful::useless;
use gather::{Join, WordSet};
use grammar::Action;
use sheet::RuleSheet;

// No model, since it would hide the ghost field `exact` of what is held, on which the crates above rest.
#[derive(Drop)]
pub struct Tables {
    pub(crate) full: Option<Full>,
}

// The stages of a build are not inlined, here and in the other files, so that what one puts on the stack is gone when it ends.

// Numbers the states of the rules.
#[inline(never)]
#[tactic(auto, using(crate::proofs::Outcomes::useless_told, crate::proofs::Outcomes::crowded_told))]
fn numbered(machine: &mut Machine) -> Result<(), BuildRefusal>
    ensures { NumberedFrom (grammar_of machine.old.rules) result machine.new }
{
    if let Some(code) = useless(&machine.rules) {
        return Err(BuildRefusal::Useless {
            nonterminal: u16::from(code),
        });
    }
    machine.states = number(&machine.rules)?;
    Ok(())
}

// The cells of a machine with its follow sets, or the first conflict.
#[inline(never)]
fn cells_of(
    machine: &Machine,
    follow: &[WordSet; 2304],
) -> Result<[[Option<Action>; 64]; 96], BuildRefusal>
    requires { SetsOf (FollowAt machine.now.rules machine.now.states) 2304 follow.now }
    ensures { Filled machine.now.rules machine.now.states result }
{
    let mut sets = [[WordSet::NONE; 97]; 96];
    look_ahead(machine, follow, &mut sets);
    fill(machine, &sets)
}

// Puts a machine and its cells together.
#[inline(never)]
fn hold(full: &mut Option<Full>, machine: Machine, cells: [[Option<Action>; 64]; 96])
    requires { Exactly machine.rules machine.states cells }
    ensures { Tabled (grammar_of machine.rules) (Ok tt) full.new }
{
    *full = Some(Full { machine, cells });
}

// Makes the tables of rules within the limits and in range.
#[inline(never)]
fn tabled(rules: Rules, full: &mut Option<Full>) -> Result<(), BuildRefusal>
    requires { full.old ≡ None }
    ensures { Tabled (grammar_of rules) result full.new }
{
    let mut machine = Machine {
        rules,
        states: States::new(),
    };
    numbered(&mut machine)?;
    let follow = follow_sets(&machine);
    let cells = cells_of(&machine, &follow)?;
    hold(full, machine, cells);
    Ok(())
}

impl Tables {
    // Blank tables.
    pub fn new() -> Tables
        ensures { held result ≡ Held.blank }
    {
        Tables { full: None }
    }

    // Builds the tables of any sheet, whatever they held before; refused, they are blank.
    #[tactic(auto, using(crate::proofs::Admissions::unread_told, crate::proofs::Outcomes::tabled_built, crate::proofs::OnlyBuilds::only_build))]
    pub fn build<S: RuleSheet>(&mut self, sheet: &S) -> Result<(), BuildRefusal>
        ensures is { BuiltFrom (S.RuleSheet.meaning sheet.now) result (held self.new) }
        ensures alone { OnlyBuild (S.RuleSheet.meaning sheet.now) result (held self.new) }
    {
        self.full = None;
        tabled(read(sheet)?, &mut self.full)
    }
}
