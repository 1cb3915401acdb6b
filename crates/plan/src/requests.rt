// Lists of requests: a plan opened, and all that is asked of it.
ghost use Rattle.plan.specs.Made.{Made};
ghost use Rattle.plan.specs.Requests.{Answered, Replied};
ghost use Rattle.plan.specs.Runs.{Ran};
ghost use Rattle.std.specs.Prelude.{◌≡◌, None, Some};

use super::plan::Plan;
use super::request::{Asked, Reply, Request};
use super::slip::Slip;
use book::Book;
use sheet::RuleSheet;
use tables::{BuildRefusal, Tables};

// Puts a slip into an empty slot, so that none is let go.
fn put(slot: &mut Option<Slip>, slip: Slip)
    requires { slot.old ≡ None }
    ensures { slot.new ≡ Some slip }
{
    if let Some(other) = slot.replace(slip) {
        other.spend();
    }
}

impl<B: Book> Plan<B> {
    // Judges a line, and keeps its slip in an empty slot.
    fn judge_into(&mut self, designer: u8, slot: usize, slips: &mut [Option<Slip>]) -> Reply
        ensures { Made B.list B.free B.grows
            (Replied (Request.Judge designer slot) result slips.old slips.new) self.old self.new }
    {
        if slot >= slips.len() {
            return Reply::NoSlot;
        }
        if slips[slot].is_some() {
            return Reply::FullSlot;
        }
        match self.judge(designer) {
            Ok(slip) => {
                put(&mut slips[slot], slip);
                Reply::Judged
            }
            Err(refusal) => Reply::Refused(refusal),
        }
    }

    // Books the slip of a slot, which lies there again where that is refused.
    fn book_from(&mut self, slot: usize, slips: &mut [Option<Slip>]) -> Reply
        ensures { Made B.list B.free B.grows
            (Replied (Request.Book slot) result slips.old slips.new) self.old self.new }
    {
        if slot >= slips.len() {
            return Reply::NoSlot;
        }
        let Some(slip) = slips[slot].take() else {
            return Reply::EmptySlot;
        };
        match self.book(slip) {
            Ok(count) => Reply::Booked(count),
            Err((refusal, slip)) => {
                put(&mut slips[slot], slip);
                Reply::Refused(refusal)
            }
        }
    }

    // Withdraws the slip of a slot, which lies there again where that is refused.
    fn withdraw_from(&mut self, slot: usize, slips: &mut [Option<Slip>]) -> Reply
        ensures { Made B.list B.free B.grows
            (Replied (Request.Withdraw slot) result slips.old slips.new) self.old self.new }
    {
        if slot >= slips.len() {
            return Reply::NoSlot;
        }
        let Some(slip) = slips[slot].take() else {
            return Reply::EmptySlot;
        };
        match self.withdraw(slip) {
            Ok(()) => Reply::Withdrawn,
            Err((refusal, slip)) => {
                put(&mut slips[slot], slip);
                Reply::Refused(refusal)
            }
        }
    }

    // One request: at most one turn.
    fn reply(&mut self, request: Request, slips: &mut [Option<Slip>]) -> Reply
        ensures { Made B.list B.free B.grows (Replied request result slips.old slips.new) self.old
            self.new }
    {
        match request {
            Request::Word { designer, word } => match self.word(designer, word) {
                Ok(count) => Reply::Taken(count),
                Err(refusal) => Reply::Refused(refusal),
            },
            Request::Judge { designer, slot } => self.judge_into(designer, slot, slips),
            Request::Book { slot } => self.book_from(slot, slips),
            Request::Withdraw { slot } => self.withdraw_from(slot, slips),
            Request::Clear { designer } => match self.clear(designer) {
                Ok(()) => Reply::Cleared,
                Err(refusal) => Reply::Refused(refusal),
            },
        }
    }

    // The requests, one behind another.
    fn reply_all(&mut self, asked: &mut [Asked], slips: &mut [Option<Slip>])
        ensures { Made B.list B.free B.grows (Answered asked.old asked.new slips.old slips.new)
            self.old self.new }
    {
        for place in 0..asked.len() {
            asked[place].reply = Some(self.reply(asked[place].request, slips));
        }
    }
}

// Opens a plan by a sheet over a book, makes the requests in order, and writes each reply beside
// its request. Slips lie in the slots. Done, the book comes back as the turns left it.
// A sheet that has no tables is refused as building it is, with the book, and all is as it was.
pub fn run<S: RuleSheet, B: Book>(
    sheet: &S,
    book: B,
    asked: &mut [Asked],
    slips: &mut [Option<Slip>],
) -> Result<B, (BuildRefusal, B)>
    ensures { Ran (S.RuleSheet.meaning sheet.now) B.list B.free B.grows
        (Answered asked.old asked.new slips.old slips.new)
        ((asked.new ≡ asked.old) × (slips.new ≡ slips.old)) book result }
{
    let mut tables = Tables::new();
    if let Err(refusal) = tables.build(sheet) {
        return Err((refusal, book));
    }
    let mut plan = Plan::open(tables, book);
    plan.reply_all(asked, slips);
    Ok(plan.close())
}
