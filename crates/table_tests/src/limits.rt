// Each limit, at it and past it, in packed sheets and in written ones.
use super::script::{Script, spelled};
use super::table::{alike, built, comes_to, conflict, packed, written};
use grammar::Action::{Accept, Reduce};
use sheet::Supplement;
use std::alloc::{AllocError, Global};
use std::process::Abort;
use std::test::Fail;
use tables::BuildRefusal::{Limits, States, Useless};
use written::WrittenSheet;

// Packed and written, the rules build so many states, and the same tables.
fn builds(rt: &impl Abort, heap: Global, script: &Script, states: usize) -> Result<(), Fail> {
    let numbers = script.numbers(heap)?;
    let sheet = packed(rt, &numbers);
    let tables = built(rt, &sheet);
    assert_eq!(rt; tables.states(), states);
    let text = spelled(heap, &sheet)?;
    assert!(rt; alike(&tables, &built(rt, &written(rt, text.as_str()))));
    Ok(())
}

// A packed sheet is refused when it is built, and a written one when it is opened.
fn both_off_limits(rt: &impl Abort, heap: Global, script: &Script) -> Result<(), Fail> {
    let numbers = script.numbers(heap)?;
    off_limits(rt, heap, &numbers)?;
    let text = spelled(heap, &packed(rt, &numbers))?;
    let mut opened = WrittenSheet::new();
    let answer = opened.open(text.as_bytes());
    assert_eq!(rt; answer.map_err(|refusal| refusal.number()), Err(3));
    Ok(())
}

fn off_limits(rt: &impl Abort, heap: Global, numbers: &[u16]) -> Result<(), Fail> {
    comes_to(rt, heap, &packed(rt, numbers), Err(Limits))
}

// A rule for each word.
fn words(heap: Global, count: u16) -> Result<Script, AllocError> {
    let mut script = Script::new(heap, count, 1);
    for word in 1..=count {
        script.rule(count.saturating_add(1), &[word])?;
    }
    Ok(script)
}

#[test]
fn terminals(rt: HostRuntime) -> Result<(), Fail> {
    let heap = rt.alloc();
    builds(&rt, heap, &words(heap, 63)?, 65)?;
    both_off_limits(&rt, heap, &words(heap, 64)?)?;
    off_limits(&rt, heap, &[257, 1, 1, 4, 258, 1, 1])?;
    off_limits(&rt, heap, &[0, 1, 1, 4, 1, 0])
}

// A rule from each nonterminal to the next, and from the last to the one word.
fn names(heap: Global, count: u16) -> Result<Script, AllocError> {
    let mut script = Script::new(heap, 1, count);
    for name in 2..=count {
        script.rule(name, &[name.saturating_add(1)])?;
    }
    script.rule(count.saturating_add(1), &[1])?;
    Ok(script)
}

#[test]
fn nonterminals(rt: HostRuntime) -> Result<(), Fail> {
    let heap = rt.alloc();
    builds(&rt, heap, &names(heap, 24)?, 26)?;
    both_off_limits(&rt, heap, &names(heap, 25)?)?;
    off_limits(&rt, heap, &[1, 257, 1, 4, 2, 1, 1])?;
    off_limits(&rt, heap, &[1, 0, 1, 4, 2, 1, 1])
}

// 96 rules: each of 46 words stands for either of two nonterminals.
fn most_rules(heap: Global) -> Result<Script, AllocError> {
    let mut script = Script::new(heap, 48, 3);
    script.rule(49, &[50, 1])?;
    script.rule(49, &[51, 2])?;
    script.rule(49, &[1])?;
    script.rule(49, &[2])?;
    for place in 0..92u16 {
        script.rule(50 + place / 46, &[3 + place % 46])?;
    }
    Ok(script)
}

#[test]
fn rules(rt: HostRuntime) -> Result<(), Fail> {
    let heap = rt.alloc();
    let mut script = most_rules(heap)?;
    builds(&rt, heap, &script, 54)?;
    script.rule(49, &[1, 2])?;
    both_off_limits(&rt, heap, &script)?;
    // and on to 257, which eight bits would have for one
    for _ in 97..257 {
        script.rule(49, &[1, 2])?;
    }
    both_off_limits(&rt, heap, &script)?;
    off_limits(&rt, heap, &[1, 1, 0])
}

fn one_rule(heap: Global, codes: &[u16]) -> Result<Script, AllocError> {
    let mut script = Script::new(heap, 1, 1);
    script.rule(2, codes)?;
    Ok(script)
}

#[test]
fn right_sides(rt: HostRuntime) -> Result<(), Fail> {
    let heap = rt.alloc();
    builds(&rt, heap, &one_rule(heap, &[1; 8])?, 10)?;
    both_off_limits(&rt, heap, &one_rule(heap, &[1; 9])?)?;
    both_off_limits(&rt, heap, &one_rule(heap, &[1; 257])?)
}

// Each of eleven words eight times, and a twelfth as told: a state for each word, and two more.
pub(crate) fn chains(heap: Global, nonterminals: u16, last: &[u16]) -> Result<Script, AllocError> {
    let mut script = Script::new(heap, 12, nonterminals);
    for word in 1..12 {
        script.rule(13, &[word; 8])?;
    }
    script.rule(13, last)?;
    Ok(script)
}

#[test]
fn states(rt: HostRuntime) -> Result<(), Fail> {
    let heap = rt.alloc();
    builds(&rt, heap, &chains(heap, 1, &[12; 6])?, 96)?;
    let numbers = chains(heap, 1, &[12; 7])?.numbers(heap)?;
    let sheet = packed(&rt, &numbers);
    comes_to(&rt, heap, &sheet, Err(States))?;
    let text = spelled(heap, &sheet)?;
    comes_to(&rt, heap, &written(&rt, text.as_str()), Err(States))
}

// Too many states are told behind a nonterminal with no rule, and before a conflict.
#[test]
fn states_stand_between(rt: HostRuntime) -> Result<(), Fail> {
    let heap = rt.alloc();
    let useless = chains(heap, 2, &[12; 7])?.numbers(heap)?;
    comes_to(
        &rt,
        heap,
        &packed(&rt, &useless),
        Err(Useless { nonterminal: 14 }),
    )?;
    let past = chains(heap, 1, &[12; 7])?.numbers(heap)?;
    let mut more = Supplement::new(packed(&rt, &past));
    assert_eq!(rt; more.add(13, &[13]), Ok(()));
    comes_to(&rt, heap, &more, Err(States))?;
    let most = chains(heap, 1, &[12; 6])?.numbers(heap)?;
    let mut more = Supplement::new(packed(&rt, &most));
    assert_eq!(rt; more.add(13, &[13]), Ok(()));
    comes_to(&rt, heap, &more, Err(conflict(13, 0, Accept, Reduce(13))))
}
