// The items of a state that are told without tables, also of a sheet whose cells conflict.
use super::limits::chains;
use super::table::{SAMPLE, built, conflict, packed, written};
use grammar::Action::Reduce;
use sheet::RuleSheet;
use std::alloc::{AllocError, Global};
use std::process::Abort;
use std::test::Fail;
use tables::{Items, Tables, items_of};

// Twelve states; in state 2 two rules are at their ends.
static CLASH: &str = r#"s : x "a" | "b" x "c" | y "c" | "b" y "a" ; x : "d" ; y : "d" ;"#;

fn put_rule(text: &mut String, items: &Items, rule: usize) -> Result<(), AllocError> {
    for dot in 0..10 {
        if items.has(rule, dot) {
            write!(text, "{rule}.{dot} ")?;
        }
    }
    Ok(())
}

// The rule and the dot of each item, past the numbers of both too: `5.1 6.1 `.
fn listed(heap: Global, items: &Items) -> Result<String, AllocError> {
    let mut text = String::new(heap);
    for rule in 0..98 {
        put_rule(&mut text, items, rule)?;
    }
    Ok(text)
}

#[test]
fn a_conflict_hides_no_items(rt: HostRuntime) -> Result<(), Fail> {
    let sheet = written(&rt, CLASH);
    let mut tables = Tables::new();
    assert_eq!(rt;
        tables.build(&sheet),
        Err(conflict(2, 1, Reduce(5), Reduce(6)))
    );
    for (state, told) in [
        (0, "0.0 1.0 2.0 3.0 4.0 5.0 6.0 "),
        (1, "2.1 4.1 5.0 6.0 "),
        (2, "5.1 6.1 "),
        (11, "4.3 "),
    ] {
        let items = items_of(&sheet, state).ok_or("no state")?;
        assert_eq!(rt; listed(rt.alloc(), &items)?.as_str(), told, "{state}");
    }
    Ok(())
}

fn has_none<S: RuleSheet>(rt: &impl Abort, sheet: &S, states: &[usize]) {
    for state in states {
        assert!(rt; items_of(sheet, *state).is_none(), "{state}");
    }
}

#[test]
fn no_items_past_the_last_state(rt: HostRuntime) {
    has_none(
        &rt,
        &written(&rt, CLASH),
        &[12, 95, 96, 256, 258, usize::MAX],
    );
}

#[test]
fn no_items_without_a_machine(rt: HostRuntime) -> Result<(), Fail> {
    // a nonterminal that is not reached, and a start that derives no words
    has_none(&rt, &written(&rt, r#"a : "x" ; b : "y" ;"#), &[0, 1]);
    has_none(&rt, &written(&rt, r#"a : a "x" ;"#), &[0, 1]);
    // no words, and no nonterminals
    has_none(&rt, &packed(&rt, &[0, 1, 1, 4, 1, 0]), &[0, 1]);
    has_none(&rt, &packed(&rt, &[1, 0, 1, 4, 2, 1, 1]), &[0, 1]);
    // a code out of range, on the right and on the left
    has_none(
        &rt,
        &packed(&rt, &[1, 1, 2, 5, 8, 2, 1, 1, 2, 1, 3]),
        &[0, 1],
    );
    has_none(
        &rt,
        &packed(&rt, &[1, 1, 2, 5, 8, 2, 1, 1, 1, 1, 1]),
        &[0, 1],
    );
    // 97 states
    let numbers = chains(rt.alloc(), 1, &[12; 7])?.numbers(rt.alloc())?;
    has_none(&rt, &packed(&rt, &numbers), &[0, 95, 96]);
    Ok(())
}

fn rule_agrees(tables: &Tables, items: &Items, state: usize, rule: usize) -> bool {
    (0..10).all(|dot| items.has(rule, dot) == tables.has_item(state, rule, dot))
}

#[test]
fn built_tables_have_the_same_items(rt: HostRuntime) -> Result<(), Fail> {
    let sheet = written(&rt, SAMPLE);
    let tables = built(&rt, &sheet);
    assert_eq!(rt; tables.states(), 8);
    for state in 0..8 {
        let items = items_of(&sheet, state).ok_or("no state")?;
        assert!(rt;
            (0..98).all(|rule| rule_agrees(&tables, &items, state, rule)),
            "{state}"
        );
    }
    has_none(&rt, &sheet, &[8]);
    Ok(())
}
