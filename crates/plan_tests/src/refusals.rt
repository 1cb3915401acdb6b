// Every refusal of every call, and that a refused turn leaves its line as it was.
use super::fixtures::{
    SHEET_A, bring, bring_in_vain, bring_line, not_booked, not_judged, not_withdrawn, tables_of,
    told, withdraw,
};
use book::{Book, NumberPage};
use line::TurnRefusal;
use plan::Plan;
use std::process::Abort;
use tables::Tables;

// What each call without a slip tells, of the same designer.
fn all_told<B: Book>(rt: &impl Abort, plan: &mut Plan<B>, designer: u8, refusal: TurnRefusal) {
    bring_in_vain(rt, plan, designer, &[0, 1, 2, 3, 4, 65535], refusal);
    assert_eq!(rt;
        not_judged(rt, plan, designer),
        refusal,
        "designer {designer}"
    );
    assert_eq!(rt; plan.clear(designer), Err(refusal), "designer {designer}");
}

// Blank tables refuse every turn, also of designers without a line, and slips of a plan with tables.
#[test]
fn blank_tables_refuse_every_turn(rt: HostRuntime) {
    let mut memory = [77; 20];
    let mut other = [77; 20];
    let mut blank = Plan::open(Tables::new(), NumberPage::open(&mut memory));
    let mut plan = Plan::open(tables_of(&rt, SHEET_A), NumberPage::open(&mut other));
    for designer in 0..=255 {
        all_told(&rt, &mut blank, designer, TurnRefusal::Blank);
        assert_eq!(rt;
            blank.book_words(designer, &[1, 2]),
            Err(TurnRefusal::Blank)
        );
    }
    let slip = bring_line(&rt, &mut plan, 0, &[1, 2]);
    let (refusal, slip) = not_booked(&rt, &mut blank, slip);
    assert_eq!(rt; (refusal, told(&slip)), (TurnRefusal::Blank, (0, 2, 3)));
    let (refusal, slip) = not_withdrawn(&rt, &mut blank, slip);
    assert_eq!(rt; (refusal, told(&slip)), (TurnRefusal::Blank, (0, 2, 3)));
    withdraw(&rt, &mut plan, slip);
    assert!(rt; blank.page().is_empty());
}

// There is no designer above 7, whatever the lines of the others are.
#[test]
fn designers_above_7_are_refused(rt: HostRuntime) {
    let mut memory = [77; 20];
    let mut plan = Plan::open(tables_of(&rt, SHEET_A), NumberPage::open(&mut memory));
    let slip = bring_line(&rt, &mut plan, 0, &[1, 2]);
    bring(&rt, &mut plan, 7, &[1]);
    for designer in 8..=255 {
        all_told(&rt, &mut plan, designer, TurnRefusal::NoDesigner);
        assert_eq!(rt;
            plan.book_words(designer, &[1, 2]),
            Err(TurnRefusal::NoDesigner)
        );
    }
    assert_eq!(rt; plan.word(7, 2), Ok(0));
    withdraw(&rt, &mut plan, slip);
    assert_eq!(rt; plan.clear(0), Ok(()));
}

// A judged line takes no word, full or not, and is neither judged again nor cleared; its slip is good still.
#[test]
fn judged_lines_are_kept(rt: HostRuntime) {
    let mut words = [3; 256];
    words[0] = 1;
    words[1] = 2;
    let mut memory = [77; 20];
    let mut plan = Plan::open(tables_of(&rt, SHEET_A), NumberPage::open(&mut memory));
    for line in &[&words[0..2], &words[0..3], &words[0..256]] {
        let slip = bring_line(&rt, &mut plan, 1, line);
        all_told(&rt, &mut plan, 1, TurnRefusal::Status);
        withdraw(&rt, &mut plan, slip);
        assert_eq!(rt; plan.word(1, 3), Err(TurnRefusal::NoAction));
    }
    assert!(rt; plan.page().is_empty());
}

// Words that are none tell 12, and words that no sentence goes on with 14; the line goes on after each.
#[test]
fn wrong_words_are_refused(rt: HostRuntime) {
    let mut memory = [77; 20];
    let mut plan = Plan::open(tables_of(&rt, SHEET_A), NumberPage::open(&mut memory));
    for (word, reductions, wrong) in &[
        (1, 0, [2, 3]),
        (2, 0, [1, 3]),
        (3, 1, [1, 2]),
        (3, 0, [1, 2]),
    ] {
        let none = [0, 4, 5, 256, 257, 258, 259, 65535];
        bring_in_vain(&rt, &mut plan, 4, &none, TurnRefusal::NoWord);
        bring_in_vain(&rt, &mut plan, 4, wrong, TurnRefusal::NoAction);
        assert_eq!(rt; plan.word(4, *word), Ok(*reductions), "word {}", *word);
    }
    let slip = plan.judge(4).expect(&rt, "judged");
    assert_eq!(rt; told(&slip), (4, 4, 5));
    withdraw(&rt, &mut plan, slip);
}

// What is no sentence yet tells 14, and goes on.
#[test]
fn beginnings_are_not_judged(rt: HostRuntime) {
    let mut memory = [77; 20];
    let mut plan = Plan::open(tables_of(&rt, SHEET_A), NumberPage::open(&mut memory));
    for word in &[1, 2] {
        assert_eq!(rt; not_judged(&rt, &mut plan, 4), TurnRefusal::NoAction);
        assert_eq!(rt; plan.word(4, *word), Ok(0));
    }
    let slip = plan.judge(4).expect(&rt, "judged");
    assert_eq!(rt; told(&slip), (4, 2, 3));
    withdraw(&rt, &mut plan, slip);
}
