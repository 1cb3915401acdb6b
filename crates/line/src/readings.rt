// A fresh line, and what a line tells.
ghost use Rattle.std.specs.Prelude.{◌≡◌, ◌≤◌, length};
ghost use Rattle.line.specs.PlanLines.{Cleared, fresh_plan_line, is_judged, plan_line_of};

use super::line::Line;
use super::status::Status;

impl Line {
    // An open line without words, in state 0.
    pub fn fresh() -> Line
        ensures fresh { plan_line_of result ≡ fresh_plan_line }
        ensures cleared { Cleared result }
    {
        Line {
            states: [0; 1025],
            depth: 1,
            words: [0; 256],
            count: 0,
            rules: [0; 768],
            steps: 0,
            status: Status::Open,
        }
    }

    // Whether the line is open or judged.
    pub fn status(&self) -> Status
        ensures { is_judged result ≡ (plan_line_of self.now).judged }
    {
        self.status
    }

    // The words taken, the oldest first.
    pub fn words(&self) -> &[u8]
        ensures words { result.now ≡ (plan_line_of self.now).line.words }
        ensures few { length result.now ≤ 256 }
    {
        &self.words[..self.count]
    }

    // The rules noted, the oldest first.
    pub fn rules(&self) -> &[u8]
        ensures rules { result.now ≡ (plan_line_of self.now).line.rules }
        ensures few { length result.now ≤ 768 }
    {
        &self.rules[..self.steps]
    }
}
