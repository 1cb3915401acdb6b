// What written sheets mean: their rules, their codes and their spellings.
use sheet::{PackedSheet, RuleSheet, pack};
use std::process::Abort;
use written::WrittenSheet;

static SAMPLE: &str = "line : edit tail ; edit : \"move\" \"wall\" ; tail : \"size\" tail | ;";

// Whether two sheets tell the same of a rule.
fn rule_alike<A: RuleSheet, B: RuleSheet>(a: &A, b: &B, rule: u16) -> bool {
    a.left(rule) == b.left(rule)
        && a.length(rule) == b.length(rule)
        && (0..9).all(|place| a.code(rule, place) == b.code(rule, place))
}

fn alike<A: RuleSheet, B: RuleSheet>(a: &A, b: &B) -> bool {
    a.terminals() == b.terminals()
        && a.nonterminals() == b.nonterminals()
        && a.rules() == b.rules()
        && (0..98).all(|rule| rule_alike(a, b, rule))
}

// The text packs to just these numbers, and they open as a sheet that reads the same.
fn packs_to(rt: &impl Abort, text: &str, numbers: &[u16]) {
    let mut sheet = WrittenSheet::new();
    assert!(rt; sheet.open(text.as_bytes()).is_ok(), "{}", text);
    let mut out = [0; 64];
    let size = numbers.len();
    assert!(rt; size <= 64);
    assert!(rt; pack(&sheet, &mut out) == Some(size), "{}", text);
    assert!(rt; &out[..size] == numbers, "{}", text);
    let mut packed = PackedSheet::new();
    assert!(rt; packed.open(numbers).is_ok(), "{}", text);
    assert!(rt; alike(&sheet, &packed), "{}", text);
}

#[test]
fn the_sample_packs(rt: HostRuntime) {
    packs_to(
        &rt,
        SAMPLE,
        &[
            3, 3, 4, 7, 11, 15, 19, 4, 2, 5, 6, 5, 2, 1, 2, 6, 2, 3, 6, 6, 0,
        ],
    );
}

// A use before its head numbers nothing, and a second appearance keeps the number of the first.
#[test]
fn numbers_go_by_first_appearance(rt: HostRuntime) {
    packs_to(
        &rt,
        "a : c \"x\" ; b : \"y\" \"x\" ; c : \"z\" b ;",
        &[3, 3, 3, 6, 10, 14, 4, 2, 6, 1, 5, 2, 2, 1, 6, 2, 3, 5],
    );
    packs_to(
        &rt,
        "a : \"x\" ; b : \"y\" ; a : b ;",
        &[2, 2, 3, 6, 9, 12, 3, 1, 1, 4, 1, 2, 3, 1, 4],
    );
    packs_to(&rt, "move : \"move\" ;", &[1, 1, 1, 4, 2, 1, 1]);
    packs_to(&rt, "a:|\"x\"|;", &[1, 1, 3, 6, 8, 11, 2, 0, 2, 1, 1, 2, 0]);
}

// Whether a code has this spelling.
fn spells(sheet: &WrittenSheet<'_>, code: u16, spelling: &str) -> bool {
    sheet.spelling(code) == Some(spelling.as_bytes())
}

#[test]
fn codes_and_spellings_go_both_ways(rt: HostRuntime) {
    let mut sheet = WrittenSheet::new();
    assert!(rt; sheet.open(SAMPLE.as_bytes()).is_ok());
    for (word, code) in &[("move", 1), ("wall", 2), ("size", 3)] {
        assert_eq!(rt; sheet.word_code(word.as_bytes()), Some(*code), "{}", *word);
        assert!(rt; spells(&sheet, *code, word), "{}", *word);
    }
    for (head, code) in &[("line", 4), ("edit", 5), ("tail", 6)] {
        assert!(rt; spells(&sheet, *code, head), "{}", *head);
    }
    for word in &["line", "tail", "mov", "moved", "Move", "\"move\"", ""] {
        assert_eq!(rt; sheet.word_code(word.as_bytes()), None, "{}", *word);
    }
    for code in &[0, 7, 64, 65535] {
        assert!(rt; sheet.spelling(*code).is_none(), "{}", *code);
    }
}

// Whether a sheet has counts 0, no rule and no spelling.
fn blank(sheet: &WrittenSheet<'_>) -> bool {
    sheet.terminals() == 0
        && sheet.nonterminals() == 0
        && sheet.rules() == 0
        && sheet.left(1).is_none()
        && sheet.word_code(b"move").is_none()
        && sheet.spelling(1).is_none()
}

#[test]
fn refused_opening_leaves_nothing(rt: HostRuntime) {
    let mut sheet = WrittenSheet::new();
    assert!(rt; blank(&sheet));
    for text in &[
        "?",
        "line : \"move\"",
        "line : \"move\" tail ;",
        "line : ;",
        "line : line line line line line line line line \"move\" ;",
    ] {
        assert!(rt;
            sheet.open(SAMPLE.as_bytes()).is_ok() && sheet.rules() == 4,
            "{}",
            *text
        );
        assert!(rt;
            sheet.open(text.as_bytes()).is_err() && blank(&sheet),
            "{}",
            *text
        );
    }
    assert!(rt; sheet.open(SAMPLE.as_bytes()).is_ok() && sheet.rules() == 4);
}
