// Slips of one plan brought to another: a call acts on its own plan's line of the slip's designer.
use super::fixtures::{
    SHEET_A, book, bring, bring_line, not_booked, not_withdrawn, tables_of, told, withdraw,
};
use book::{Book, NumberPage};
use line::TurnRefusal;
use plan::Plan;

// Where the designer's own line is open, the slip is refused and handed back, and the line goes on.
#[test]
fn a_foreign_slip_is_refused_at_an_open_line(rt: HostRuntime) {
    let (mut here, mut there) = ([77; 20], [77; 20]);
    let mut here = Plan::open(tables_of(&rt, SHEET_A), NumberPage::open(&mut here));
    let mut there = Plan::open(tables_of(&rt, SHEET_A), NumberPage::open(&mut there));
    bring(&rt, &mut here, 2, &[1]);
    let other = bring_line(&rt, &mut here, 3, &[1, 2]);
    let slip = bring_line(&rt, &mut there, 2, &[1, 2, 3]);
    let (refusal, slip) = not_booked(&rt, &mut here, slip);
    assert_eq!(rt; (refusal, told(&slip)), (TurnRefusal::Status, (2, 3, 4)));
    let (refusal, slip) = not_withdrawn(&rt, &mut here, slip);
    assert_eq!(rt; (refusal, told(&slip)), (TurnRefusal::Status, (2, 3, 4)));
    assert!(rt; here.page().is_empty());
    assert_eq!(rt; here.word(2, 2), Ok(0));
    assert_eq!(rt; here.word(3, 3), Err(TurnRefusal::Status));
    assert_eq!(rt; book(&rt, &mut there, slip), 1);
    withdraw(&rt, &mut here, other);
}

// Where it is judged, it is booked as it stands there, whatever the slip tells.
#[test]
fn a_foreign_slip_books_the_line_here(rt: HostRuntime) {
    let (mut ours, mut theirs) = ([77; 10], [77; 10]);
    let mut here = Plan::open(tables_of(&rt, SHEET_A), NumberPage::open(&mut ours));
    let mut there = Plan::open(tables_of(&rt, SHEET_A), NumberPage::open(&mut theirs));
    let own = bring_line(&rt, &mut here, 2, &[1, 2]);
    let slip = bring_line(&rt, &mut there, 2, &[1, 2, 3]);
    assert_eq!(rt; book(&rt, &mut here, slip), 1);
    // the own slip has lost its line here, and there it finds one
    let (refusal, own) = not_booked(&rt, &mut here, own);
    assert_eq!(rt; (refusal, told(&own)), (TurnRefusal::Status, (2, 2, 3)));
    assert_eq!(rt; book(&rt, &mut there, own), 1);
    assert_eq!(rt; ours, [2, 2, 3, 1, 2, 2, 4, 1, 77, 77]);
    assert_eq!(rt; theirs, [2, 3, 4, 1, 2, 3, 2, 4, 3, 1]);
}

#[test]
fn a_foreign_slip_withdraws_the_line_here(rt: HostRuntime) {
    let (mut ours, mut theirs) = ([77; 10], [77; 10]);
    let mut here = Plan::open(tables_of(&rt, SHEET_A), NumberPage::open(&mut ours));
    let mut there = Plan::open(tables_of(&rt, SHEET_A), NumberPage::open(&mut theirs));
    let own = bring_line(&rt, &mut here, 6, &[1, 2]);
    let slip = bring_line(&rt, &mut there, 6, &[1, 2, 3]);
    withdraw(&rt, &mut here, slip);
    assert_eq!(rt; here.word(6, 1), Ok(0));
    assert_eq!(rt; there.word(6, 3), Err(TurnRefusal::Status));
    let (refusal, own) = not_withdrawn(&rt, &mut here, own);
    assert_eq!(rt; (refusal, told(&own)), (TurnRefusal::Status, (6, 2, 3)));
    withdraw(&rt, &mut there, own);
    assert_eq!(rt; there.word(6, 1), Ok(0));
    assert_eq!(rt; (ours, theirs), ([77; 10], [77; 10]));
}
