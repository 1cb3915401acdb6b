// The turns of a line.
ghost use Rattle.std.specs.Prelude.{◌≡◌, ◌<◌, OnErr, OnOk};
ghost use Rattle.line.specs.LineTurns.{asking, freshen_on, judge_on, word_on};
ghost use Rattle.line.specs.MachineRuns.{Decided, Took};
ghost use Rattle.line.specs.PlanLines.{Cleared, is_judged, plan_line_of};
ghost use Rattle.line.specs.Steps.{done, step_of};
ghost use Rattle.tables.specs.Building.{held};

use super::line::Line;
use super::machine::Stop;
use super::status::Status;
use super::trial::Trial;
use super::turn_refusal::TurnRefusal;
use tables::Tables;

// Tables come beside a line, here and in `machine`: the plan keeps one for all its lines, and
// refuses blank ones.
impl Line {
    // Refused 10 where the line has not this status.
    pub fn expect(&self, status: Status) -> Result<(), TurnRefusal>
        ensures { let l = plan_line_of self.now in asking (is_judged status) l (done tt l)
            ≡ step_of result l }
    {
        if self.status != status {
            return Err(TurnRefusal::Status);
        }
        Ok(())
    }

    // Takes a word of the tables into an open line with room for it, or leaves the line as it
    // stood.
    fn take(&mut self, tables: &Tables, word: u8) -> Result<u16, TurnRefusal>
        requires room { self.old.count < 256 }
        requires open { self.old.status ≡ Status.Open }
        ensures took { Took (held tables.now) word (plan_line_of self.old).line
            (step_of result (plan_line_of self.new)) }
        ensures kept { OnErr result (self.new ≡ self.old) }
    {
        let before = self.steps;
        let mut trial = Trial::start(self);
        let Stop::Shifted(to) = trial.line.run(tables, word)? else {
            return Err(TurnRefusal::NoAction);
        };
        trial.line.shift(to, word);
        trial.keep();
        Ok((trial.line.steps - before) as u16)
    }

    // Brings a word to the line, and answers how many rules were noted; refused, the line is as it
    // was.
    pub fn word(&mut self, tables: &Tables, word: u16) -> Result<u16, TurnRefusal>
        ensures turned { word_on (held tables.now) (plan_line_of self.old) word
            ≡ step_of result (plan_line_of self.new) }
        ensures kept { OnErr result (self.new ≡ self.old) }
    {
        self.expect(Status::Open)?;
        if self.count == 256 {
            return Err(TurnRefusal::FullLine);
        }
        if word == 0 || word > u16::from(tables.terminals()) {
            return Err(TurnRefusal::NoWord);
        }
        self.take(tables, word as u8)
    }

    // Judges an open line at the end mark, or leaves it as it stood.
    fn decide(&mut self, tables: &Tables) -> Result<(u16, u16), TurnRefusal>
        requires { self.old.status ≡ Status.Open }
        ensures decided { Decided (held tables.now) (plan_line_of self.old).line
            (step_of result (plan_line_of self.new)) }
        ensures kept { OnErr result (self.new ≡ self.old) }
    {
        let mut trial = Trial::start(self);
        let Stop::Accepted = trial.line.run(tables, 0)? else {
            return Err(TurnRefusal::NoAction);
        };
        trial.line.status = Status::Judged;
        trial.keep();
        Ok((trial.line.count as u16, trial.line.steps as u16))
    }

    // Judges the line, and answers how many words and rules it has; refused, the line is as it was.
    // The answer is a pair, words and then rules, since the definition of the turn gives a pair.
    pub fn judge(&mut self, tables: &Tables) -> Result<(u16, u16), TurnRefusal>
        ensures turned { judge_on (held tables.now) (plan_line_of self.old)
            ≡ step_of result (plan_line_of self.new) }
        ensures kept { OnErr result (self.new ≡ self.old) }
    {
        self.expect(Status::Open)?;
        self.decide(tables)
    }

    // Makes a line of this status fresh, in all its memory; refused, the line is as it was.
    pub fn freshen(&mut self, status: Status) -> Result<(), TurnRefusal>
        ensures turned { freshen_on (is_judged status) (plan_line_of self.old)
            ≡ step_of result (plan_line_of self.new) }
        ensures cleared { OnOk result (Cleared self.new) }
        ensures kept { OnErr result (self.new ≡ self.old) }
    {
        self.expect(status)?;
        *self = Line::fresh();
        Ok(())
    }
}
