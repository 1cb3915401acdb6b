// The machine on a line.
ghost use Rattle.line.specs.MachineRuns.{StatesKept, MachineRan};
ghost use Rattle.line.specs.PlanLines.{plan_line_of};
ghost use Rattle.line.specs.Reductions.{reduction, turned_to};
ghost use Rattle.tables.specs.Building.{held};
ghost use Rattle.std.specs.Prelude.{◌≡◌};

use super::line::Line;
use super::turn_refusal::TurnRefusal;
use grammar::Action;
use tables::Tables;

// Not an option, since to accept is an answer of its own and not the lack of a state.
// Where the machine stops with no refusal: at a word that it takes, with the state that it goes on
// to, or at the end of a line that it accepts.
#[derive(Clone, Copy)]
pub(crate) enum Stop {
    Shifted(u8),
    Accepted,
}

impl Line {
    // Reduces by a rule: 13 where 768 rules are noted, 14 where states or a goto are lacking.
    #[tactic(auto, using(crate::proofs::HeldStates::goto_below))]
    pub(crate) fn reduce(&mut self, tables: &Tables, rule: u8) -> Result<(), TurnRefusal>
        ensures reduced { reduction (held tables.now) (plan_line_of self.old).line rule
            ≡ turned_to result (plan_line_of self.new).line }
        ensures kept { StatesKept self.old self.new }
    {
        if self.steps == 768 {
            return Err(TurnRefusal::Reductions);
        }
        let length = tables
            .length(usize::from(rule))
            .ok_or(TurnRefusal::NoAction)?;
        let left = tables.left(usize::from(rule)).ok_or(TurnRefusal::NoAction)?;
        let state = self.under(length).ok_or(TurnRefusal::NoAction)?;
        let to = tables
            .goto(usize::from(state), usize::from(left))
            .ok_or(TurnRefusal::NoAction)?;
        self.replace(length, to as u8, rule);
        Ok(())
    }

    // Runs the machine at a word, or at the end mark 0, up to a shift or an accept.
    pub(crate) fn run(&mut self, tables: &Tables, word: u8) -> Result<Stop, TurnRefusal>
        ensures ran { MachineRan (held tables.now) word (plan_line_of self.old).line result
            (plan_line_of self.new).line }
        ensures kept { StatesKept self.old self.new }
    {
        // Each round but the last reduces; a `for` over the 768 would need an answer behind its end
        // that no call comes to.
        loop {
            match tables.cell(usize::from(self.top()), usize::from(word)) {
                Some(Action::Shift(to)) => return Ok(Stop::Shifted(to)),
                Some(Action::Accept) => return Ok(Stop::Accepted),
                Some(Action::Reduce(rule)) => self.reduce(tables, rule)?,
                None => return Err(TurnRefusal::NoAction),
            }
        }
    }
}
