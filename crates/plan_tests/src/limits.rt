// Lines as long as they may be, in words and in derivation steps.
use super::fixtures::{
    SHEET_A, SHEET_E, book, bring, bring_in_vain, bring_line, not_judged, tables_of, told, withdraw,
};
use book::{Book, NumberPage};
use line::TurnRefusal;
use plan::Plan;
use std::process::Abort;

// A word takes five derivation steps, four of them before the next word.
static STEEP: &str =
    "line : order line | ; order : kind ; kind : name ; name : act ; act : \"go\" ;";

// Judges a line in vain, for its steps: it is as it was, and can be cleared.
fn too_many_steps<B: Book>(rt: &impl Abort, plan: &mut Plan<B>, designer: u8) {
    assert_eq!(rt; not_judged(rt, plan, designer), TurnRefusal::Reductions);
    assert_eq!(rt; not_judged(rt, plan, designer), TurnRefusal::Reductions);
    assert_eq!(rt; plan.clear(designer), Ok(()));
}

#[test]
fn steps_up_to_768(rt: HostRuntime) {
    let mut memory = [0; 20];
    let mut plan = Plan::open(tables_of(&rt, SHEET_E), NumberPage::open(&mut memory));
    for round in 0..2 {
        let slip = bring_line(&rt, &mut plan, 3, &[1; 191]);
        assert_eq!(rt; told(&slip), (3, 191, 765), "round {round}");
        withdraw(&rt, &mut plan, slip);
        bring(&rt, &mut plan, 3, &[1; 192]);
        assert_eq!(rt; not_judged(&rt, &mut plan, 3), TurnRefusal::Reductions);
        // refused, the line has 192 words and is open
        assert_eq!(rt; plan.word(3, 1), Ok(3), "round {round}");
        too_many_steps(&rt, &mut plan, 3);
    }
}

// The 769th step is refused at a word as at the end, behind words that are none.
#[test]
fn a_word_may_come_to_768_steps(rt: HostRuntime) {
    let mut memory = [0; 20];
    let mut plan = Plan::open(tables_of(&rt, STEEP), NumberPage::open(&mut memory));
    for _ in 0..2 {
        bring(&rt, &mut plan, 5, &[1; 193]);
        bring_in_vain(&rt, &mut plan, 5, &[1, 1], TurnRefusal::Reductions);
        bring_in_vain(&rt, &mut plan, 5, &[0, 2], TurnRefusal::NoWord);
        too_many_steps(&rt, &mut plan, 5);
    }
}

// The most words, and the entry of such a line; a full line takes no word, whatever it is, and can be judged and cleared.
#[test]
fn words_up_to_256(rt: HostRuntime) {
    let mut words = [3; 256];
    words[0] = 1;
    words[1] = 2;
    let mut memory = [0; 516];
    let mut plan = Plan::open(tables_of(&rt, SHEET_A), NumberPage::open(&mut memory));
    bring(&rt, &mut plan, 7, &words);
    bring_in_vain(
        &rt,
        &mut plan,
        7,
        &[0, 1, 2, 3, 4, 65535],
        TurnRefusal::FullLine,
    );
    assert_eq!(rt; plan.clear(7), Ok(()));
    let slip = bring_line(&rt, &mut plan, 7, &words);
    assert_eq!(rt; told(&slip), (7, 256, 257));
    assert_eq!(rt; book(&rt, &mut plan, slip), 1);
    assert_eq!(rt; plan.word(7, 1), Ok(0));
    let mut entry = [3; 516];
    entry[0..5].copy_from_slice(&[7, 256, 257, 1, 2]);
    entry[259..261].copy_from_slice(&[2, 4]);
    entry[515] = 1;
    assert!(rt; memory == entry);
}
