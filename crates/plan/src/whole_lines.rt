// Lists of whole lines: a plan opened, and every line brought, judged and booked.
ghost use Rattle.plan.specs.LinesAnswered.{LinesAnswered};
ghost use Rattle.plan.specs.Made.{Made};
ghost use Rattle.plan.specs.Runs.{Ran};
ghost use Rattle.std.specs.Prelude.{◌≡◌};

use super::plan::Plan;
use book::Book;
use line::TurnRefusal;
use sheet::RuleSheet;
use tables::{BuildRefusal, Tables};

// A designer's whole line with its answer, none before it is taken.
#[derive(Clone, Copy)]
pub struct LineAsked<'a> {
    pub designer: u8,
    pub words: &'a [u16],
    pub answer: Option<Result<u64, TurnRefusal>>,
}

impl<B: Book> Plan<B> {
    // The lines, one behind another.
    fn book_each(&mut self, lines: &mut [LineAsked<'_>])
        ensures { Made B.list B.free B.grows (LinesAnswered lines.old lines.new) self.old self.new }
    {
        for place in 0..lines.len() {
            let line = lines[place];
            lines[place].answer = Some(self.book_words(line.designer, line.words));
        }
    }
}

// Opens a plan by a sheet over a book, takes the lines in order, and writes each answer beside its
// line: its words are brought, it is judged and booked, to the first refusal; a judged line is then
// withdrawn, and an open one cleared. Done, the book comes back as the turns left it.
// A sheet that has no tables is refused as building it is, with the book, and all is as it was.
pub fn book_all<S: RuleSheet, B: Book>(
    sheet: &S,
    book: B,
    lines: &mut [LineAsked<'_>],
) -> Result<B, (BuildRefusal, B)>
    ensures { Ran (S.RuleSheet.meaning sheet.now) B.list B.free B.grows
        (LinesAnswered lines.old lines.new) (lines.new ≡ lines.old) book result }
{
    let mut tables = Tables::new();
    if let Err(refusal) = tables.build(sheet) {
        return Err((refusal, book));
    }
    let mut plan = Plan::open(tables, book);
    plan.book_each(lines);
    Ok(plan.close())
}
