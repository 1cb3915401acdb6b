// Lists of requests, and lists of whole lines, each run in one call.
use super::fixtures::{SHEET_A, book as book_slip, bring_line, tables_of, told};
use book::{Book, NumberPage};
use line::TurnRefusal;
use plan::{Asked, LineAsked, Plan, Reply, Request, Slip, book_all, run};
use std::process::Abort;
use written::WrittenSheet;

fn ask(request: Request) -> Asked {
    Asked {
        request,
        reply: None,
    }
}

fn word(designer: u8, word: u16) -> Asked {
    ask(Request::Word { designer, word })
}

fn judge(designer: u8, slot: usize) -> Asked {
    ask(Request::Judge { designer, slot })
}

fn book(slot: usize) -> Asked {
    ask(Request::Book { slot })
}

fn withdraw(slot: usize) -> Asked {
    ask(Request::Withdraw { slot })
}

fn clear(designer: u8) -> Asked {
    ask(Request::Clear { designer })
}

fn line(designer: u8, words: &[u16]) -> LineAsked<'_> {
    LineAsked {
        designer,
        words,
        answer: None,
    }
}

fn opened<'a>(rt: &impl Abort, text: &'a str) -> WrittenSheet<'a> {
    let mut sheet = WrittenSheet::new();
    assert_eq!(rt; sheet.open(text.as_bytes()), Ok(()));
    sheet
}

// Runs the requests by sheet A; what the page holds is told by its length.
fn done(
    rt: &impl Abort,
    memory: &mut [u16],
    asked: &mut [Asked],
    slips: &mut [Option<Slip>],
) -> u32 {
    let sheet = opened(rt, SHEET_A);
    match run(&sheet, NumberPage::open(memory), asked, slips) {
        Ok(page) => page.len(),
        Err((refusal, _page)) => panic!(rt; "refused {refusal}"),
    }
}

fn replied(rt: &impl Abort, asked: &[Asked], replies: &[Reply]) {
    assert_eq!(rt; asked.len(), replies.len());
    for (place, reply) in replies.iter().enumerate() {
        assert_eq!(rt; asked[place].reply, Some(*reply), "request {place}");
    }
}

fn all_empty(rt: &impl Abort, slips: [Option<Slip>; 2]) {
    let [first, second] = slips;
    match (first, second) {
        (None, None) => {}
        (Some(_slip), _) => panic!(rt; "a slip is left"),
        (None, Some(_slip)) => panic!(rt; "a slip is left"),
    }
}

#[test]
fn a_day(rt: HostRuntime) {
    let mut memory = [77; 12];
    let mut asked = [
        word(2, 1),
        judge(2, 0),
        word(2, 2),
        judge(2, 0),
        word(2, 3),
        judge(3, 0),
        judge(3, 2),
        book(1),
        withdraw(1),
        book(2),
        withdraw(7),
        book(0),
        book(0),
        word(8, 1),
        word(3, 0),
        word(3, 1),
        clear(3),
        clear(9),
        judge(3, 1),
    ];
    let mut slips = [None, None];
    assert_eq!(rt; done(&rt, &mut memory, &mut asked, &mut slips), 8);
    replied(
        &rt,
        &asked,
        &[
            Reply::Taken(0),
            Reply::Refused(TurnRefusal::NoAction),
            Reply::Taken(0),
            Reply::Judged,
            Reply::Refused(TurnRefusal::Status),
            Reply::FullSlot,
            Reply::NoSlot,
            Reply::EmptySlot,
            Reply::EmptySlot,
            Reply::NoSlot,
            Reply::NoSlot,
            Reply::Booked(1),
            Reply::EmptySlot,
            Reply::Refused(TurnRefusal::NoDesigner),
            Reply::Refused(TurnRefusal::NoWord),
            Reply::Taken(0),
            Reply::Cleared,
            Reply::Refused(TurnRefusal::NoDesigner),
            Reply::Refused(TurnRefusal::NoAction),
        ],
    );
    assert_eq!(rt; memory, [2, 2, 3, 1, 2, 2, 4, 1, 77, 77, 77, 77]);
    all_empty(&rt, slips);
}

// A slip of another plan lies in a slot: it acts on this plan's line of its designer, and is kept where it is refused.
#[test]
fn a_slip_from_elsewhere(rt: HostRuntime) {
    let (mut ours, mut theirs) = ([77; 12], [77; 12]);
    let mut there = Plan::open(tables_of(&rt, SHEET_A), NumberPage::open(&mut theirs));
    let slip = bring_line(&rt, &mut there, 2, &[1, 2, 3]);
    let mut slips = [Some(slip), None];
    let mut asked = [
        book(0),
        withdraw(0),
        word(2, 1),
        word(2, 2),
        judge(2, 0),
        judge(2, 1),
        book(0),
        withdraw(1),
    ];
    assert_eq!(rt; done(&rt, &mut ours, &mut asked, &mut slips), 8);
    replied(
        &rt,
        &asked,
        &[
            Reply::Refused(TurnRefusal::Status),
            Reply::Refused(TurnRefusal::Status),
            Reply::Taken(0),
            Reply::Taken(0),
            Reply::FullSlot,
            Reply::Judged,
            Reply::Booked(1),
            Reply::Refused(TurnRefusal::Status),
        ],
    );
    assert_eq!(rt; ours, [2, 2, 3, 1, 2, 2, 4, 1, 77, 77, 77, 77]);
    // the line there is still judged, and takes the slip that is left
    let [first, second] = slips;
    match (first, second) {
        (None, Some(slip)) => {
            assert_eq!(rt; told(&slip), (2, 2, 3));
            assert_eq!(rt; book_slip(&rt, &mut there, slip), 1);
        }
        (Some(_slip), _) => panic!(rt; "the other plan's slip is left"),
        (None, None) => panic!(rt; "no slip is left"),
    }
    assert_eq!(rt; theirs, [2, 3, 4, 1, 2, 3, 2, 4, 3, 1, 77, 77]);
}

// A sheet that conflicts: the book comes back, and nothing that was lent has changed.
#[test]
fn no_tables(rt: HostRuntime) {
    let mut memory = [77; 4];
    let mut page = NumberPage::open(&mut memory);
    assert!(rt; page.put(5));
    let sheet = opened(&rt, r#"line : "a" line "a" | "a" ;"#);
    let before = [
        word(0, 1),
        Asked {
            request: Request::Clear { designer: 0 },
            reply: Some(Reply::NoSlot),
        },
    ];
    let mut asked = before;
    let mut slips = [None, None];
    match run(&sheet, page, &mut asked, &mut slips) {
        Ok(_page) => panic!(rt; "built"),
        Err((refusal, page)) => {
            assert_eq!(rt; refusal.number(), 7);
            assert_eq!(rt; (page.len(), page.free()), (1, 3));
        }
    }
    assert_eq!(rt; asked, before);
    all_empty(&rt, slips);
    let mut lines = [line(0, &[1])];
    let page = NumberPage::open(&mut memory);
    match book_all(&sheet, page, &mut lines) {
        Ok(_page) => panic!(rt; "built"),
        Err((refusal, page)) => {
            assert_eq!(rt; refusal.number(), 7);
            assert_eq!(rt; (page.len(), page.free()), (0, 4));
        }
    }
    assert_eq!(rt; lines[0].answer, None);
}

// Nothing asked, and no slot: the book is as it was.
#[test]
fn nothing_asked(rt: HostRuntime) {
    let mut memory = [77; 4];
    assert_eq!(rt; done(&rt, &mut memory, &mut [], &mut []), 0);
    let mut asked = [judge(0, 0), book(0), withdraw(0)];
    assert_eq!(rt; done(&rt, &mut memory, &mut asked, &mut []), 0);
    replied(&rt, &asked, &[Reply::NoSlot; 3]);
    assert_eq!(rt; memory, [77; 4]);
}

// Whole lines: each is answered, and what is refused leaves nothing to the next.
#[test]
fn lines_at_once(rt: HostRuntime) {
    let mut memory = [77; 20];
    let sheet = opened(&rt, SHEET_A);
    let mut lines = [
        line(0, &[1, 2, 3]),
        line(3, &[3]),
        line(3, &[]),
        line(8, &[1, 2]),
        line(3, &[1, 0]),
        line(3, &[1, 2]),
        line(3, &[1, 2]),
    ];
    match book_all(&sheet, NumberPage::open(&mut memory), &mut lines) {
        Ok(page) => assert_eq!(rt; (page.len(), page.free()), (18, 2)),
        Err((refusal, _page)) => panic!(rt; "refused {refusal}"),
    }
    for (place, answer) in [
        Ok(1),
        Err(TurnRefusal::NoAction),
        Err(TurnRefusal::NoAction),
        Err(TurnRefusal::NoDesigner),
        Err(TurnRefusal::NoWord),
        Ok(2),
        Err(TurnRefusal::FullBook),
    ]
    .iter()
    .enumerate()
    {
        assert_eq!(rt; lines[place].answer, Some(*answer), "line {place}");
    }
    assert_eq!(rt;
        memory,
        [0, 3, 4, 1, 2, 3, 2, 4, 3, 1, 3, 2, 3, 1, 2, 2, 4, 1, 77, 77]
    );
}
