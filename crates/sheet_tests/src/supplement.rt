use sheet::{AddRefusal, PackedSheet, RuleSheet, Supplement, pack};
use std::process::Abort;

// One terminal, one nonterminal and one rule.
static SMALL: [u16; 7] = [1, 1, 1, 4, 2, 1, 1];

// Terminals and nonterminals whose codes pass 16 bits in sum.
static WIDE: [u16; 3] = [65534, 65535, 0];

// Adds sixteen rules.
fn fill<S: RuleSheet>(rt: &impl Abort, sheet: &mut Supplement<S>) {
    for _ in 0..16 {
        assert_eq!(rt; sheet.add(2, &[1]), Ok(()));
    }
}

#[test]
fn own_rules_stand_behind(rt: HostRuntime) {
    let mut sheet = PackedSheet::new();
    assert!(rt; sheet.open(&SMALL).is_ok());
    let mut more = Supplement::new(sheet);
    assert_eq!(rt; more.add(2, &[2, 1]), Ok(()));
    assert!(rt; more.own_rules() == 1);
    let mut out = [7; 12];
    assert_eq!(rt; pack(&more, &mut out), Some(12));
    assert_eq!(rt; out, [1, 1, 2, 5, 8, 2, 1, 1, 2, 2, 2, 1]);
    assert!(rt;
        more.left(0).is_none()
            && more.left(3).is_none()
            && more.length(3).is_none()
            && more.code(2, 2).is_none()
    );
}

#[test]
fn limits_come_before_range(rt: HostRuntime) {
    let mut sheet = PackedSheet::new();
    assert!(rt; sheet.open(&SMALL).is_ok());
    let mut more = Supplement::new(sheet);
    assert_eq!(rt;
        more.add(2, &[1; 9]),
        Err(AddRefusal::Limits),
        "a ninth code"
    );
    assert_eq!(rt; more.add(2, &[1; 8]), Ok(()), "eight codes");
    let mut full = Supplement::new(more);
    fill(&rt, &mut full);
    assert_eq!(rt; full.add(2, &[1]), Err(AddRefusal::Limits), "a 17th rule");
    assert_eq!(rt;
        full.add(0, &[0]),
        Err(AddRefusal::Limits),
        "a 17th rule, out of range too"
    );
    assert!(rt; full.rules() == 18 && full.own_rules() == 16 && full.left(19).is_none());
}

#[test]
fn codes_keep_to_their_range(rt: HostRuntime) {
    let mut sheet = PackedSheet::new();
    assert!(rt; sheet.open(&SMALL).is_ok());
    let mut more = Supplement::new(sheet);
    let second = Err(AddRefusal::Range { rule: 2 });
    assert_eq!(rt; more.add(1, &[]), second, "left side below");
    assert_eq!(rt; more.add(3, &[]), second, "left side past");
    assert_eq!(rt; more.add(2, &[1, 0]), second, "code 0");
    assert_eq!(rt; more.add(2, &[3, 1]), second, "code past");
    assert!(rt; more.rules() == 1 && more.own_rules() == 0);
    assert_eq!(rt; more.add(2, &[1, 2]), Ok(()));
    assert_eq!(rt; more.add(0, &[]), Err(AddRefusal::Range { rule: 3 }));
}

#[test]
fn codes_may_pass_16_bits_in_sum(rt: HostRuntime) {
    let mut wide = PackedSheet::new();
    assert!(rt; wide.open(&WIDE).is_ok());
    let mut more = Supplement::new(wide);
    assert_eq!(rt; more.add(65534, &[]), Err(AddRefusal::Range { rule: 1 }));
    assert_eq!(rt; more.add(65535, &[65535]), Ok(()));
}

#[test]
fn no_more_than_96_rules(rt: HostRuntime) {
    let mut sheet = PackedSheet::new();
    assert!(rt; sheet.open(&[1, 1, 0]).is_ok());
    let mut a = Supplement::new(sheet);
    fill(&rt, &mut a);
    let mut b = Supplement::new(a);
    fill(&rt, &mut b);
    let mut c = Supplement::new(b);
    fill(&rt, &mut c);
    let mut d = Supplement::new(c);
    fill(&rt, &mut d);
    let mut e = Supplement::new(d);
    fill(&rt, &mut e);
    let mut f = Supplement::new(e);
    fill(&rt, &mut f);
    assert!(rt; f.rules() == 96 && f.left(97).is_none());
    let mut last = Supplement::new(f);
    assert_eq!(rt; last.add(2, &[1]), Err(AddRefusal::Limits));
    assert!(rt; last.rules() == 96 && last.own_rules() == 0 && last.code(96, 0).is_some());
}
