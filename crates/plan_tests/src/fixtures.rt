// Tables to open plans with, and turns that are not to be refused.
use book::Book;
use line::TurnRefusal;
use plan::{Plan, Slip};
use std::process::Abort;
use tables::Tables;
use written::WrittenSheet;

// Sentences are move wall and any number of sizes.
pub(crate) static SHEET_A: &str =
    "line : edit tail ; edit : \"move\" \"wall\" ; tail : \"size\" tail | ;";

// A word takes four derivation steps, and the end of a line one.
pub(crate) static SHEET_E: &str =
    "line : order line | ; order : kind ; kind : name ; name : \"go\" ;";

// The tables of a written sheet.
pub(crate) fn tables_of(rt: &impl Abort, text: &str) -> Tables {
    let mut sheet = WrittenSheet::new();
    assert_eq!(rt; sheet.open(text.as_bytes()), Ok(()));
    let mut tables = Tables::new();
    assert_eq!(rt; tables.build(&sheet), Ok(()));
    tables
}

// Brings words that are all taken.
pub(crate) fn bring<B: Book>(rt: &impl Abort, plan: &mut Plan<B>, designer: u8, words: &[u16]) {
    for word in words {
        assert!(rt; plan.word(designer, *word).is_ok(), "word {}", *word);
    }
}

// Brings words that are all refused alike.
pub(crate) fn bring_in_vain<B: Book>(
    rt: &impl Abort,
    plan: &mut Plan<B>,
    designer: u8,
    words: &[u16],
    refusal: TurnRefusal,
) {
    for word in words {
        assert_eq!(rt; plan.word(designer, *word), Err(refusal), "word {}", *word);
    }
}

// Brings words that are all taken, and judges the line.
pub(crate) fn bring_line<B: Book>(
    rt: &impl Abort,
    plan: &mut Plan<B>,
    designer: u8,
    words: &[u16],
) -> Slip {
    bring(rt, plan, designer, words);
    plan.judge(designer).expect(rt, "judged")
}

// Judges a line in vain.
pub(crate) fn not_judged<B: Book>(
    rt: &impl Abort,
    plan: &mut Plan<B>,
    designer: u8,
) -> TurnRefusal {
    match plan.judge(designer) {
        Ok(_slip) => panic!(rt; "judged"),
        Err(refusal) => refusal,
    }
}

// What a slip tells: the designer, and how many words and steps.
pub(crate) fn told(slip: &Slip) -> (u8, u16, u16) {
    (slip.designer(), slip.words(), slip.steps())
}

// Books a slip.
pub(crate) fn book<B: Book>(rt: &impl Abort, plan: &mut Plan<B>, slip: Slip) -> u64 {
    match plan.book(slip) {
        Ok(count) => count,
        Err((refusal, _slip)) => panic!(rt; "refused {refusal}"),
    }
}

// Withdraws a slip.
pub(crate) fn withdraw<B: Book>(rt: &impl Abort, plan: &mut Plan<B>, slip: Slip) {
    match plan.withdraw(slip) {
        Ok(()) => {}
        Err((refusal, _slip)) => panic!(rt; "refused {refusal}"),
    }
}

// Books a slip in vain: the refusal, and the slip handed back.
pub(crate) fn not_booked<B: Book>(
    rt: &impl Abort,
    plan: &mut Plan<B>,
    slip: Slip,
) -> (TurnRefusal, Slip) {
    match plan.book(slip) {
        Ok(count) => panic!(rt; "booked as {count}"),
        Err(refused) => refused,
    }
}

// Withdraws a slip in vain.
pub(crate) fn not_withdrawn<B: Book>(
    rt: &impl Abort,
    plan: &mut Plan<B>,
    slip: Slip,
) -> (TurnRefusal, Slip) {
    match plan.withdraw(slip) {
        Ok(()) => panic!(rt; "withdrawn"),
        Err(refused) => refused,
    }
}
