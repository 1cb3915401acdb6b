// The lines of the eight designers.
ghost use Rattle.line.specs.PlanLines.{fresh_plan_line};
ghost use Rattle.plan.specs.Bookings.{EntryOn};
ghost use Rattle.plan.specs.Lent.{LendsLine, Lent};
ghost use Rattle.tables.specs.Building.{held};
ghost use Rattle.std.specs.Borrow.{sem};
ghost use Rattle.std.specs.Prelude.{◌≡◌, replicate};

use super::entry::entry_of;
use book::{Book, enter};
use line::{Line, Status, TurnRefusal};
use std::marker::Model;
use tables::Tables;

// A designer's line, which clauses see by what it stands for.
#[derive(Drop)]
pub struct Seat {
    pub(crate) line: Line,
}

impl Model for Seat {
    ghost use Rattle.line.specs.PlanLines.{PlanLine, plan_line_of};

    ghost Value = { PlanLine };

    ghost view = { λ s. plan_line_of s.line };
}

// One line for each designer, from 0 to 7.
#[derive(Drop)]
pub struct Lines {
    seats: [Seat; 8],
}

// Clauses see what the eight lines stand for.
impl Model for Lines {
    ghost use Rattle.line.specs.PlanLines.{PlanLine};
    ghost use Rattle.std.specs.Prelude.{List};

    ghost Value = { List PlanLine };

    ghost view = { λ l. l.seats };
}

impl Seat {
    // A fresh line.
    fn fresh() -> Seat
        ensures { result ≡ fresh_plan_line }
    {
        Seat {
            line: Line::fresh(),
        }
    }

    // Puts the entry of a judged line into the book, whole or not at all; the line is then fresh.
    pub(crate) fn book<B: Book>(&mut self, designer: u8, book: &mut B) -> Result<(), TurnRefusal>
        ensures { EntryOn B.list B.free B.grows designer self.old book.old result
            self.new book.new }
    {
        self.line.expect(Status::Judged)?;
        let entry = entry_of(designer, self.line.words(), self.line.rules());
        if !enter(book, entry.as_slice()) {
            return Err(TurnRefusal::FullBook);
        }
        *self = Seat::fresh();
        Ok(())
    }
}

impl Lines {
    // Eight fresh lines. A line is not copied once it has a model, so each is written out.
    pub(crate) fn fresh() -> Lines
        ensures { result ≡ replicate 8 fresh_plan_line }
    {
        Lines {
            seats: [
                Seat::fresh(),
                Seat::fresh(),
                Seat::fresh(),
                Seat::fresh(),
                Seat::fresh(),
                Seat::fresh(),
                Seat::fresh(),
                Seat::fresh(),
            ],
        }
    }

    // Lends a designer's line for a turn. Blank tables are refused before a designer above 7 is.
    pub(crate) fn lend(&mut self, tables: &Tables, designer: u8) -> Result<&mut Seat, TurnRefusal>
        ensures* lends { sem 𝓛 (LendsLine self.entry designer result) }
        ensures which { Lent (held tables.now) self.old designer result }
    {
        if tables.is_blank() {
            return Err(TurnRefusal::Blank);
        }
        if designer > 7 {
            return Err(TurnRefusal::NoDesigner);
        }
        Ok(&mut self.seats[usize::from(designer)])
    }
}
