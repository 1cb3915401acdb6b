// What a build comes to: a refusal, or states, which are told as text.
use grammar::Action;
use sheet::{PackedSheet, RuleSheet};
use std::alloc::{AllocError, Global};
use std::process::Abort;
use std::test::Fail;
use tables::{BuildRefusal, Tables};
use written::WrittenSheet;

// Sheet A: three words, three nonterminals, four rules and eight states.
pub(crate) static SAMPLE: &str =
    r#"line : edit tail ; edit : "move" "wall" ; tail : "size" tail | ;"#;

pub(crate) fn written<'a>(rt: &impl Abort, text: &'a str) -> WrittenSheet<'a> {
    let mut sheet = WrittenSheet::new();
    assert_eq!(rt; sheet.open(text.as_bytes()), Ok(()), "{text}");
    sheet
}

pub(crate) fn packed<'a>(rt: &impl Abort, numbers: &'a [u16]) -> PackedSheet<'a> {
    let mut sheet = PackedSheet::new();
    assert_eq!(rt; sheet.open(numbers), Ok(()), "{numbers:?}");
    sheet
}

pub(crate) fn built<S: RuleSheet>(rt: &impl Abort, sheet: &S) -> Tables {
    let mut tables = Tables::new();
    assert_eq!(rt; tables.build(sheet), Ok(()));
    tables
}

fn put_cell(text: &mut String, cell: Option<Action>) -> Result<(), AllocError> {
    match cell {
        None => write!(text, "- "),
        Some(Action::Shift(state)) => write!(text, "s{state} "),
        Some(Action::Accept) => write!(text, "acc "),
        Some(Action::Reduce(rule)) => write!(text, "r{rule} "),
    }
}

fn put_cells(text: &mut String, tables: &Tables, state: usize) -> Result<(), AllocError> {
    for word in 0..usize::from(tables.terminals()) + 1 {
        put_cell(text, tables.cell(state, word))?;
    }
    Ok(())
}

fn put_gotos(text: &mut String, tables: &Tables, state: usize) -> Result<(), AllocError> {
    let terminals = usize::from(tables.terminals());
    for name in 1..usize::from(tables.nonterminals()) + 1 {
        match tables.goto(state, terminals + name) {
            None => text.push_str(" -")?,
            Some(target) => write!(text, " {target}")?,
        }
    }
    Ok(())
}

// Of each state the cells from the end mark on, and where the nonterminals lead: `- s1 r2 | 3 -; acc - - | - -`.
fn whole(heap: Global, tables: &Tables) -> Result<String, AllocError> {
    let mut text = String::new(heap);
    for state in 0..tables.states() {
        if state > 0 {
            text.push_str("; ")?;
        }
        put_cells(&mut text, tables, state)?;
        text.push_str("|")?;
        put_gotos(&mut text, tables, state)?;
    }
    Ok(text)
}

fn shifted(cell: Option<Action>) -> Option<usize> {
    match cell {
        Some(Action::Shift(state)) => Some(usize::from(state)),
        _ => None,
    }
}

// Whether each word leads just where its cell shifts to.
fn words_lead_as_shifted(tables: &Tables, state: usize) -> bool {
    (1..usize::from(tables.terminals()) + 1).all(|word| tables.goto(state, word)
        == shifted(tables.cell(state, word)))
}

// Tables that held sheet A have just these states, or are blank by this refusal.
pub(crate) fn comes_to<S: RuleSheet>(
    rt: &impl Abort,
    heap: Global,
    sheet: &S,
    told: Result<&str, BuildRefusal>,
) -> Result<(), Fail> {
    let mut tables = built(rt, &written(rt, SAMPLE));
    let answer = tables.build(sheet);
    match told {
        Ok(states) => {
            assert_eq!(rt; answer, Ok(()), "{states}");
            assert_eq!(rt; whole(heap, &tables)?.as_str(), states);
            assert!(rt; (0..tables.states()).all(|state| words_lead_as_shifted(&tables, state)));
        }
        Err(refusal) => {
            assert_eq!(rt; answer, Err(refusal));
            assert!(rt; tables.is_blank());
        }
    }
    Ok(())
}

// Each text, with what its build comes to.
pub(crate) fn all_come_to(
    rt: &impl Abort,
    heap: Global,
    cases: &[(&str, Result<&str, BuildRefusal>)],
) -> Result<(), Fail> {
    for (text, told) in cases {
        comes_to(rt, heap, &written(rt, text), *told)?;
    }
    Ok(())
}

// No product passes 32 bits, since each sum is below 65,521.
fn sum_of(bytes: &[u8]) -> u32 {
    bytes.iter().fold(0u32, |sum, byte| {
        sum.wrapping_mul(193).wrapping_add(u32::from(*byte)) % 65521
    })
}

// In short: the number of states and a sum over the bytes of their text, or the refusal as it is printed.
fn outcome<S: RuleSheet>(heap: Global, sheet: &S) -> Result<String, AllocError> {
    let mut tables = Tables::new();
    if let Err(refusal) = tables.build(sheet) {
        return refusal.to_string(heap);
    }
    let states = tables.states();
    let sum = sum_of(whole(heap, &tables)?.as_bytes());
    format!(in heap; "{states} states, {sum}")
}

// Each line is a text and, behind an arrow, what its build comes to in short.
pub(crate) fn lines_hold(rt: &impl Abort, heap: Global, lines: &[&str]) -> Result<(), Fail> {
    for line in lines {
        let (text, told) = line.split_once(" => ").unwrap_or((*line, ""));
        assert_eq!(rt; outcome(heap, &written(rt, text))?.as_str(), told, "{text}");
    }
    Ok(())
}

pub(crate) fn conflict(state: u8, word: u8, first: Action, second: Action) -> BuildRefusal {
    BuildRefusal::Conflict {
        state,
        word,
        first,
        second,
    }
}

fn state_alike(a: &Tables, b: &Tables, state: usize) -> bool {
    (0..90).all(|code| {
        a.cell(state, code) == b.cell(state, code) && a.goto(state, code) == b.goto(state, code)
    })
}

fn items_alike(a: &Tables, b: &Tables, state: usize, rule: usize) -> bool {
    (0..10).all(|dot| a.has_item(state, rule, dot) == b.has_item(state, rule, dot))
}

fn rule_alike(a: &Tables, b: &Tables, rule: usize) -> bool {
    a.left(rule) == b.left(rule)
        && a.length(rule) == b.length(rule)
        && (0..97).all(|state| items_alike(a, b, state, rule))
}

// Whether tables tell the same, past their numbers too.
pub(crate) fn alike(a: &Tables, b: &Tables) -> bool {
    a.states() == b.states()
        && a.terminals() == b.terminals()
        && a.nonterminals() == b.nonterminals()
        && a.rules() == b.rules()
        && (0..98).all(|rule| rule_alike(a, b, rule))
        && (0..97).all(|state| state_alike(a, b, state))
}
