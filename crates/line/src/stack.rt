// The stack of states of a line.
ghost use Rattle.std.specs.Prelude.{◌≡◌, ℕ, ◌<◌, ◌≤◌, true, ◌∷◌, drop, is_some};
ghost use Rattle.line.specs.MachineRuns.{StatesKept};
ghost use Rattle.line.specs.PlanLines.{plan_line_of};
ghost use Rattle.line.specs.Stacks.{Under, replaced, shifted};

use super::line::Line;

impl Line {
    // The state on top.
    pub(crate) fn top(&self) -> u8
        ensures { (plan_line_of self.now).line.states
            ≡ result ∷ drop 1 (plan_line_of self.now).line.states }
    {
        self.states[self.depth - 1]
    }

    // The state under the topmost `length`.
    pub(crate) fn under(&self, length: u8) -> Option<u8>
        ensures under { Under (plan_line_of self.now).line.states length result }
        ensures within { is_some result ≡ true → length < self.now.depth }
    {
        let place = self.depth.checked_sub(usize::from(length) + 1)?;
        Some(self.states[place])
    }

    // Puts a state in the place of the topmost `length`, and notes the rule.
    pub(crate) fn replace(&mut self, length: u8, to: u8, rule: u8)
        requires length_lt_depth { length < self.old.depth }
        requires steps_bound { self.old.steps < 768 }
        ensures replaced { plan_line_of self.new ≡ replaced (plan_line_of self.old) length to rule }
        ensures kept { StatesKept self.old self.new }
    {
        let place = self.depth - usize::from(length);
        self.states[place] = to;
        self.rules[self.steps] = rule;
        self.depth = place + 1;
        self.steps += 1;
    }

    // Puts a state on, and notes the word.
    pub(crate) fn shift(&mut self, to: u8, word: u8)
        requires { self.old.count < 256 }
        ensures shifted { plan_line_of self.new ≡ shifted (plan_line_of self.old) to word }
        ensures steps { self.new.steps ≡ self.old.steps }
    {
        self.states[self.depth] = to;
        self.words[self.count] = word;
        self.depth += 1;
        self.count += 1;
    }
}
