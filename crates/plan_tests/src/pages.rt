// Bookings in full pages, and what pages hold of many designers' lines.
use super::fixtures::{SHEET_A, book, bring, bring_line, not_booked, tables_of, told, withdraw};
use book::{Book, NumberPage, PrintedPage};
use line::TurnRefusal;
use plan::Plan;
use std::process::Abort;

// Books move wall size, which takes 10 numbers, where one fewer is free.
#[test]
fn nine_numbers_are_too_few(rt: HostRuntime) {
    let mut memory = [77; 9];
    let mut plan = Plan::open(tables_of(&rt, SHEET_A), NumberPage::open(&mut memory));
    let slip = bring_line(&rt, &mut plan, 3, &[1, 2, 3]);
    let (refusal, slip) = not_booked(&rt, &mut plan, slip);
    assert_eq!(rt; (refusal, told(&slip)), (TurnRefusal::FullBook, (3, 3, 4)));
    assert_eq!(rt; (plan.page().len(), plan.page().free()), (0, 9));
    // the line is judged still
    assert_eq!(rt; plan.word(3, 3), Err(TurnRefusal::Status));
    withdraw(&rt, &mut plan, slip);
    assert_eq!(rt; plan.word(3, 1), Ok(0));
    assert_eq!(rt; memory, [77; 9]);
}

#[test]
fn ten_numbers_suffice(rt: HostRuntime) {
    let mut memory = [77; 10];
    let mut plan = Plan::open(tables_of(&rt, SHEET_A), NumberPage::open(&mut memory));
    let slip = bring_line(&rt, &mut plan, 3, &[1, 2, 3]);
    assert_eq!(rt; book(&rt, &mut plan, slip), 1);
    assert_eq!(rt; (plan.page().len(), plan.page().free()), (10, 0));
    assert_eq!(rt; memory, [3, 3, 4, 1, 2, 3, 2, 4, 3, 1]);
}

// Bookings to the end of a page: what does not fit is refused, and a shorter line may still fit.
#[test]
fn a_page_fills_up(rt: HostRuntime) {
    let mut memory = [77; 39];
    let mut plan = Plan::open(tables_of(&rt, SHEET_A), NumberPage::open(&mut memory));
    for count in 1..3 {
        assert_eq!(rt; plan.book_words(0, &[1, 2, 3, 3]), Ok(count));
    }
    // 15 are free: 16 are too many and 10 are not; then 5 are free, and 8 are too many
    let long = bring_line(&rt, &mut plan, 1, &[1, 2, 3, 3, 3, 3]);
    let short = bring_line(&rt, &mut plan, 2, &[1, 2, 3]);
    let shortest = bring_line(&rt, &mut plan, 4, &[1, 2]);
    let (refusal, long) = not_booked(&rt, &mut plan, long);
    assert_eq!(rt; refusal, TurnRefusal::FullBook);
    assert_eq!(rt; book(&rt, &mut plan, short), 3);
    let (refusal, shortest) = not_booked(&rt, &mut plan, shortest);
    assert_eq!(rt; refusal, TurnRefusal::FullBook);
    assert_eq!(rt; plan.book_words(0, &[1, 2]), Err(TurnRefusal::FullBook));
    withdraw(&rt, &mut plan, long);
    withdraw(&rt, &mut plan, shortest);
    assert_eq!(rt; (plan.page().len(), plan.page().free()), (34, 5));
    assert_eq!(rt;
        memory,
        [
            0, 4, 5, 1, 2, 3, 3, 2, 4, 3, 3, 1, 0, 4, 5, 1, 2, 3, 3, 2, 4, 3, 3, 1, 2, 3, 4, 1, 2,
            3, 2, 4, 3, 1, 77, 77, 77, 77, 77,
        ]
    );
}

// A word of each designer's line in turn: they all begin move wall, and designer 5 adds sizes for two more rounds.
fn bring_in_turn<B: Book>(rt: &impl Abort, plan: &mut Plan<B>) {
    for word in &[1, 2] {
        for designer in 0..8 {
            bring(rt, plan, designer, &[*word]);
        }
    }
    bring(rt, plan, 5, &[3, 3]);
}

// Eight lines brought and judged side by side; the book has them in booking order, whatever the order of the rest.
#[test]
fn eight_designers_are_booked_in_order(rt: HostRuntime) {
    let mut memory = [77; 70];
    let mut plan = Plan::open(tables_of(&rt, SHEET_A), NumberPage::open(&mut memory));
    bring_in_turn(&rt, &mut plan);
    let slips = [7, 6, 5, 4, 3, 2, 1, 0].map(|designer: u8| plan
        .judge(designer)
        .expect(&rt, "judged"));
    let [h, g, f, e, d, c, b, a] = slips;
    assert_eq!(rt; book(&rt, &mut plan, d), 1);
    assert_eq!(rt; book(&rt, &mut plan, a), 2);
    assert_eq!(rt; book(&rt, &mut plan, h), 3);
    assert_eq!(rt; book(&rt, &mut plan, f), 4);
    assert_eq!(rt; book(&rt, &mut plan, c), 5);
    assert_eq!(rt; book(&rt, &mut plan, b), 6);
    assert_eq!(rt; book(&rt, &mut plan, g), 7);
    assert_eq!(rt; book(&rt, &mut plan, e), 8);
    assert_eq!(rt; plan.page().free(), 2);
    assert_eq!(rt;
        memory,
        [
            3, 2, 3, 1, 2, 2, 4, 1, 0, 2, 3, 1, 2, 2, 4, 1, 7, 2, 3, 1, 2, 2, 4, 1, 5, 4, 5, 1, 2,
            3, 3, 2, 4, 3, 3, 1, 2, 2, 3, 1, 2, 2, 4, 1, 1, 2, 3, 1, 2, 2, 4, 1, 6, 2, 3, 1, 2, 2,
            4, 1, 4, 2, 3, 1, 2, 2, 4, 1, 77, 77,
        ]
    );
}

// The bytes of a printed page, and none written behind them.
#[test]
fn a_printed_page_has_a_line_for_each_number(rt: HostRuntime) {
    let mut memory = [b'-'; 110];
    let mut plan = Plan::open(tables_of(&rt, SHEET_A), PrintedPage::open(&mut memory));
    assert_eq!(rt; plan.book_words(6, &[1, 2, 3]), Ok(1));
    assert_eq!(rt; plan.book_words(0, &[1, 2]), Ok(2));
    assert_eq!(rt; plan.book_words(0, &[1, 2]), Err(TurnRefusal::FullBook));
    assert_eq!(rt; plan.page().free(), 0);
    assert_eq!(rt;
        memory.as_slice(),
        b"00006\n00003\n00004\n00001\n00002\n00003\n00002\n00004\n00003\n00001\n00000\n00002\n00003\n00001\n00002\n00002\n00004\n00001\n--".as_slice()
    );
}
