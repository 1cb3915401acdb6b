// A plan: tables and a book from its opening on, and the lines of eight designers.
ghost use Rattle.plan.specs.Bookings.{LineBooked, Waiting};
ghost use Rattle.plan.specs.LawKept.{LawBegun, LawKept};
ghost use Rattle.plan.specs.Model.{opened_model};
ghost use Rattle.plan.specs.Plans.{BookGrows, SameBook, book_made, booking, clear_made, judge_made};
ghost use Rattle.plan.specs.Plans.{withdraw_made, word_made};
ghost use Rattle.plan.specs.Slips.{HandedBack, unhanded};
ghost use Rattle.plan.specs.Steps.{clear_step, judge_step, on_line, withdraw_step, word_step};
ghost use Rattle.line.specs.Answers.{answer_of};
ghost use Rattle.line.specs.LineTurns.{freshen_on};
ghost use Rattle.line.specs.PlanLines.{is_judged};
ghost use Rattle.tables.specs.Building.{held};
ghost use Rattle.std.specs.Prelude.{◌≡◌};

use super::lines::Lines;
use super::slip::Slip;
use book::Book;
use line::{Status, TurnRefusal};
use std::marker::Model;
use tables::Tables;

// `booked` counts the lines booked since the opening.
#[derive(Drop)]
pub struct Plan<B> {
    tables: Tables,
    book: B,
    lines: Lines,
    booked: u64,
}

// Clauses see the tables, the book, and the lines with the count.
impl<B> Model for Plan<B> {
    ghost use Rattle.plan.specs.Plans.{PlanValue};

    ghost Value = { PlanValue B };

    ghost view = { λ p.
        record {
          tables = p.tables;
          book = p.book;
          model = record { lines = p.lines; count = p.booked };
        } };
}

impl<B: Book> Plan<B> {
    // A plan with fresh lines, over these tables and this book.
    pub fn open(tables: Tables, book: B) -> Plan<B>
        ensures kept { (result.tables ≡ tables) × (result.book ≡ book) }
        ensures fresh { result.model ≡ opened_model }
        ensures law { LawBegun B.list B.free result }
    {
        Plan {
            tables,
            book,
            lines: Lines::fresh(),
            booked: 0,
        }
    }

    // The book as it now is.
    pub fn page(&self) -> &B
        ensures { result.now ≡ self.now.book }
    {
        &self.book
    }

    // The end of a plan: its book.
    pub fn close(self) -> B
        ensures { result ≡ self.book }
    {
        self.book
    }

    // Brings a word to a designer's line, as a step of the plan.
    fn bring(&mut self, designer: u8, word: u16) -> Result<u16, TurnRefusal>
        ensures step { word_step (held self.old.tables) self.old.model designer word
            ≡ record { answer = answer_of result; next = self.new.model } }
        ensures kept { SameBook self.old self.new }
    {
        let seat = self.lines.lend(&self.tables, designer)?;
        seat.line.word(&self.tables, word)
    }

    // Brings a word to a designer's line; a word taken is answered by the number of reductions.
    #[tactic(auto, using(crate::proofs::LawKept::word_law))]
    pub fn word(&mut self, designer: u8, word: u16) -> Result<u16, TurnRefusal>
        ensures step { word_step (held self.old.tables) self.old.model designer word
            ≡ record { answer = answer_of result; next = self.new.model } }
        ensures kept { SameBook self.old self.new }
        ensures law { LawKept B.list B.free self.old (word_made designer word result) self.new }
    {
        self.bring(designer, word)
    }

    // Judges a designer's line, and gives out its slip, which then waits.
    pub(crate) fn judge_line(&mut self, designer: u8) -> Result<Slip, TurnRefusal>
        ensures step { judge_step (held self.old.tables) self.old.model designer
            ≡ record { answer = answer_of result; next = self.new.model } }
        ensures kept { SameBook self.old self.new }
        ensures waiting { Waiting self.new result }
    {
        let seat = self.lines.lend(&self.tables, designer)?;
        let (words, steps) = seat.line.judge(&self.tables)?;
        Ok(Slip::issue(designer, words, steps))
    }

    // Judges a designer's line; one found good gives out a slip.
    #[tactic(auto, using(crate::proofs::LawKept::judge_law))]
    pub fn judge(&mut self, designer: u8) -> Result<Slip, TurnRefusal>
        ensures step { judge_step (held self.old.tables) self.old.model designer
            ≡ record { answer = answer_of result; next = self.new.model } }
        ensures kept { SameBook self.old self.new }
        ensures waiting { Waiting self.new result }
        ensures law { LawKept B.list B.free self.old (judge_made designer result) self.new }
    {
        self.judge_line(designer)
    }

    // Books the judged line of a designer: its whole entry goes into the book, or nothing.
    fn book_line(&mut self, designer: u8) -> Result<u64, TurnRefusal>
        ensures booked { LineBooked B.list B.free B.grows self.old designer result self.new }
        ensures kept { self.new.tables ≡ self.old.tables }
    {
        let seat = self.lines.lend(&self.tables, designer)?;
        seat.book(designer, &mut self.book)?;
        self.booked = self.booked.saturating_add(1);
        Ok(self.booked)
    }

    // Books a judged line, which is then fresh, and answers how many lines were booked since the
    // opening; refused, the slip is handed back.
    #[tactic(auto, using(crate::proofs::LawKept::book_law))]
    pub fn book(&mut self, slip: Slip) -> Result<u64, (TurnRefusal, Slip)>
        ensures step { let step = booking B.free self.old slip.designer in
            (step.answer ≡ answer_of (unhanded result)) × (step.next ≡ self.new.model) }
        ensures written { let step = booking B.free self.old slip.designer in
            BookGrows B.grows self.old.book step.written result self.new.book }
        ensures back { HandedBack slip result }
        ensures kept { self.new.tables ≡ self.old.tables }
        ensures law { LawKept B.list B.free self.old (book_made slip result) self.new }
    {
        let booked = self.book_line(slip.designer());
        slip.settled(booked)
    }

    // Makes a designer's line of this status fresh.
    fn freshen(&mut self, designer: u8, status: Status) -> Result<(), TurnRefusal>
        ensures step { on_line (held self.old.tables) self.old.model designer
            (freshen_on (is_judged status))
            ≡ record { answer = answer_of result; next = self.new.model } }
        ensures kept { SameBook self.old self.new }
    {
        let seat = self.lines.lend(&self.tables, designer)?;
        seat.line.freshen(status)
    }

    // Withdraws a judged line, which is then fresh; refused, the slip is handed back.
    #[tactic(auto, using(crate::proofs::LawKept::withdraw_law))]
    pub fn withdraw(&mut self, slip: Slip) -> Result<(), (TurnRefusal, Slip)>
        ensures step { withdraw_step (held self.old.tables) self.old.model slip.designer
            ≡ record { answer = answer_of (unhanded result); next = self.new.model } }
        ensures back { HandedBack slip result }
        ensures kept { SameBook self.old self.new }
        ensures law { LawKept B.list B.free self.old (withdraw_made slip result) self.new }
    {
        let designer = slip.designer();
        let withdrawn = self.freshen(designer, Status::Judged);
        slip.settled(withdrawn)
    }

    // Clears an open line, which is then fresh.
    #[tactic(auto, using(crate::proofs::LawKept::clear_law))]
    pub fn clear(&mut self, designer: u8) -> Result<(), TurnRefusal>
        ensures step { clear_step (held self.old.tables) self.old.model designer
            ≡ record { answer = answer_of result; next = self.new.model } }
        ensures kept { SameBook self.old self.new }
        ensures law { LawKept B.list B.free self.old (clear_made designer result) self.new }
    {
        self.freshen(designer, Status::Open)
    }
}
