use sheet::{PackedRefusal, PackedSheet, RuleSheet, Supplement, pack};

static SAMPLE: [u16; 21] = [
    3, 3, 4, 7, 11, 15, 19, 4, 2, 5, 6, 5, 2, 1, 2, 6, 2, 3, 6, 6, 0,
];

// One such function for each kind of sheet: they open numbers here and text there.
fn opened(numbers: &[u16]) -> Result<(), PackedRefusal> {
    let mut sheet = PackedSheet::new();
    sheet.open(numbers)
}

// Whether nothing is told of a rule.
fn silent(sheet: &PackedSheet, rule: u16) -> bool {
    sheet.left(rule).is_none() && sheet.length(rule).is_none() && sheet.code(rule, 0).is_none()
}

#[test]
fn sample_opens_and_packs_again(rt: HostRuntime) {
    let mut sheet = PackedSheet::new();
    assert_eq!(rt; sheet.open(&SAMPLE), Ok(()));
    let mut out = [7; 21];
    assert_eq!(rt; pack(&sheet, &mut out), Some(21));
    assert_eq!(rt; out, SAMPLE);
}

#[test]
fn readings_keep_inside(rt: HostRuntime) {
    let mut sheet = PackedSheet::new();
    assert_eq!(rt; sheet.open(&SAMPLE), Ok(()));
    assert_eq!(rt;
        (sheet.left(1), sheet.length(2), sheet.code(3, 1)),
        (Some(4), Some(2), Some(6))
    );
    assert!(rt; silent(&sheet, 0) && silent(&sheet, 5) && silent(&sheet, 65535));
    assert!(rt; sheet.code(1, 2).is_none() && sheet.code(4, 0).is_none());
}

#[test]
fn refused_opening_leaves_nothing(rt: HostRuntime) {
    let mut sheet = PackedSheet::new();
    assert_eq!(rt; sheet.open(&SAMPLE), Ok(()));
    assert_eq!(rt;
        sheet.open(&SAMPLE[0..20]),
        Err(PackedRefusal::Layout { rule: 4 })
    );
    assert!(rt; sheet.terminals() == 0 && sheet.nonterminals() == 0 && sheet.rules() == 0);
    assert!(rt; silent(&sheet, 1));
}

#[test]
fn each_cause_is_told(rt: HostRuntime) {
    assert_eq!(rt;
        opened(&[]),
        Err(PackedRefusal::Layout { rule: 0 }),
        "no numbers"
    );
    assert_eq!(rt;
        opened(&[3, 3]),
        Err(PackedRefusal::Layout { rule: 0 }),
        "two numbers"
    );
    assert_eq!(rt;
        opened(&[1, 1, 2, 5]),
        Err(PackedRefusal::Layout { rule: 0 }),
        "contents cut"
    );
    assert_eq!(rt;
        opened(&[1, 1, 65535, 4]),
        Err(PackedRefusal::Layout { rule: 0 }),
        "most of 65,535 places missing"
    );
    assert_eq!(rt;
        opened(&[1, 1, 1, 5, 2, 0]),
        Err(PackedRefusal::Layout { rule: 1 }),
        "first place wrong"
    );
    assert_eq!(rt;
        opened(&[1, 1, 2, 5, 6, 2, 1, 1, 2, 0]),
        Err(PackedRefusal::Layout { rule: 2 }),
        "a body inside another"
    );
    assert_eq!(rt;
        opened(&[1, 1, 1, 4, 2]),
        Err(PackedRefusal::Layout { rule: 1 }),
        "body without its length"
    );
    assert_eq!(rt;
        opened(&[1, 1, 1, 4, 2, 3, 1, 1]),
        Err(PackedRefusal::Layout { rule: 1 }),
        "body cut"
    );
    assert_eq!(rt;
        opened(&[1, 1, 1, 4, 2, 0, 9]),
        Err(PackedRefusal::Layout { rule: 2 }),
        "a number behind"
    );
    assert_eq!(rt;
        opened(&[1, 1, 0, 9]),
        Err(PackedRefusal::Layout { rule: 1 }),
        "a number behind no rule"
    );
}

#[test]
fn packing_leaves_the_rest(rt: HostRuntime) {
    let mut sheet = PackedSheet::new();
    assert_eq!(rt; sheet.open(&[1, 1, 1, 4, 2, 1, 1]), Ok(()));
    let mut small = [7; 6];
    assert_eq!(rt; pack(&sheet, &mut small), None);
    assert_eq!(rt; small, [7; 6]);
    let mut large = [7; 9];
    assert_eq!(rt; pack(&sheet, &mut large), Some(7));
    assert_eq!(rt; large, [1, 1, 1, 4, 2, 1, 1, 7, 7]);
}

// A body that ends at 65,536: its sheet can be packed, and with one more rule it cannot.
#[test]
fn packing_needs_narrow_places(rt: HostRuntime) {
    let mut numbers = [1; 65536];
    numbers[3] = 4;
    numbers[4] = 2;
    numbers[5] = 65530;
    let mut sheet = PackedSheet::new();
    assert_eq!(rt; sheet.open(&numbers), Ok(()));
    let mut out = [7; 66000];
    assert_eq!(rt; pack(&sheet, &mut out), Some(65536));
    let mut more = Supplement::new(sheet);
    assert!(rt; more.add(2, &[1]).is_ok());
    assert_eq!(rt; pack(&more, &mut out), None);
}
