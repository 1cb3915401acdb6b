// A whole line at once: its words are brought, the line is judged and booked, to the first refusal.
ghost use Rattle.line.specs.Answers.{answer_of};
ghost use Rattle.plan.specs.Bookings.{SlipWaits, Waiting};
ghost use Rattle.plan.specs.Plans.{BookGrows, SameBook};
ghost use Rattle.plan.specs.Steps.{withdraw_step};
ghost use Rattle.plan.specs.WholeCalls.{judging_call, line_call, settling};
ghost use Rattle.plan.specs.Made.{Made};
ghost use Rattle.plan.specs.WholeLines.{Judging, SettlingSlip, WholeLine, Withdrawing};
ghost use Rattle.tables.specs.Building.{held};
ghost use Rattle.std.specs.Prelude.{◌≡◌};

use super::plan::Plan;
use super::slip::Slip;
use book::Book;
use line::TurnRefusal;

impl<B: Book> Plan<B> {
    // Brings the words to the first refusal, and judges the line if there is none.
    fn judge_words(&mut self, designer: u8, words: &[u16]) -> Result<Slip, TurnRefusal>
        ensures step { judging_call (held self.old.tables) self.old.model designer words.now
            ≡ record { answer = answer_of result; next = self.new.model } }
        ensures made { Made B.list B.free B.grows (Judging designer words.now (answer_of result))
            self.old self.new }
        ensures waiting { Waiting self.new result }
        ensures kept { SameBook self.old self.new }
    {
        for word in words {
            self.word(designer, *word)?;
        }
        self.judge_line(designer)
    }

    // Withdraws the line of a slip that waits: this is never refused, so that no slip is lost.
    fn take_back(&mut self, slip: Slip)
        requires { SlipWaits (held self.old.tables) self.old.model slip }
        ensures step { (withdraw_step (held self.old.tables) self.old.model slip.designer).next
            ≡ self.new.model }
        ensures made { Made B.list B.free B.grows (Withdrawing slip) self.old self.new }
        ensures kept { SameBook self.old self.new }
    {
        if let Err((_, slip)) = self.withdraw(slip) {
            slip.spend();
        }
    }

    // Books the line of a slip that waits, or withdraws it where booking is refused.
    fn settle(&mut self, slip: Slip) -> Result<u64, TurnRefusal>
        requires { SlipWaits (held self.old.tables) self.old.model slip }
        ensures step { let step = settling B.free self.old slip in
            (step.answer ≡ answer_of result) × (step.next ≡ self.new.model) }
        ensures written { let step = settling B.free self.old slip in
            BookGrows B.grows self.old.book step.written result self.new.book }
        ensures made { Made B.list B.free B.grows (SettlingSlip slip (answer_of result)) self.old
            self.new }
        ensures kept { self.new.tables ≡ self.old.tables }
    {
        // The refused arm takes the plan and the slip, which a closure for `map_err` would have to
        // borrow: no plainer.
        match self.book(slip) {
            Ok(count) => Ok(count),
            Err((refusal, slip)) => {
                self.take_back(slip);
                Err(refusal)
            }
        }
    }

    // Brings the words to a designer's line, judges it and books it, to the first refusal; the line
    // is then withdrawn if this call judged it, and cleared if it is open. One that was judged before
    // stays so.
    pub fn book_words(&mut self, designer: u8, words: &[u16]) -> Result<u64, TurnRefusal>
        ensures step { let step = line_call B.free self.old designer words.now in
            (step.answer ≡ answer_of result)
            × (step.next ≡ self.new.model) }
        ensures written { BookGrows B.grows self.old.book
            (line_call B.free self.old designer words.now).written result self.new.book }
        ensures made { Made B.list B.free B.grows (WholeLine designer words.now (answer_of result))
            self.old self.new }
        ensures kept { self.new.tables ≡ self.old.tables }
    {
        // Both arms take the plan, which closures for `and_then` and `map_err` could not share.
        match self.judge_words(designer, words) {
            Ok(slip) => self.settle(slip),
            Err(refusal) => {
                // Refused where there is no such line, or it was judged before: nothing is to be cleared.
                let _ = self.clear(designer);
                Err(refusal)
            }
        }
    }
}
