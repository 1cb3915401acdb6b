// Tables that are built again, and from sheets of other kinds.
use super::table::{SAMPLE, alike, built, packed, written};
use sheet::Supplement;
use tables::{BuildRefusal, Tables};

static LIST: &str = r#"list : list "x" | "x" ;"#;

#[test]
fn what_was_held_is_replaced(rt: HostRuntime) {
    let mut tables = built(&rt, &written(&rt, SAMPLE));
    assert_eq!(rt; tables.build(&written(&rt, LIST)), Ok(()));
    assert!(rt; alike(&tables, &built(&rt, &written(&rt, LIST))));
}

// Whether nothing is told of what sheet A would have.
fn silent(tables: &Tables) -> bool {
    tables.is_blank()
        && tables.states() == 0
        && tables.terminals() == 0
        && tables.nonterminals() == 0
        && tables.rules() == 0
        && tables.cell(0, 1).is_none()
        && tables.goto(0, 1).is_none()
        && tables.left(1).is_none()
        && tables.length(1).is_none()
        && !tables.has_item(0, 0, 0)
}

#[test]
fn blank_tables_tell_nothing(rt: HostRuntime) {
    let mut tables = Tables::new();
    assert!(rt; silent(&tables));
    assert_eq!(rt; tables.build(&written(&rt, SAMPLE)), Ok(()));
    assert!(rt; !tables.is_blank() && !silent(&tables));
    assert_eq!(rt;
        tables.build(&packed(&rt, &[1, 1, 0])),
        Err(BuildRefusal::Limits)
    );
    assert!(rt; silent(&tables) && alike(&tables, &Tables::new()));
    assert_eq!(rt; tables.build(&written(&rt, LIST)), Ok(()));
    assert!(rt; alike(&tables, &built(&rt, &written(&rt, LIST))));
}

#[test]
fn sheets_of_one_meaning_build_the_same(rt: HostRuntime) {
    let tables = built(&rt, &written(&rt, SAMPLE));
    let whole = packed(
        &rt,
        &[
            3, 3, 4, 7, 11, 15, 19, 4, 2, 5, 6, 5, 2, 1, 2, 6, 2, 3, 6, 6, 0,
        ],
    );
    assert!(rt; alike(&tables, &built(&rt, &whole)));
    let mut more = Supplement::new(packed(&rt, &[3, 3, 2, 5, 9, 4, 2, 5, 6, 5, 2, 1, 2]));
    assert_eq!(rt; more.add(6, &[3, 6]), Ok(()));
    let mut most = Supplement::new(more);
    assert_eq!(rt; most.add(6, &[]), Ok(()));
    assert!(rt; alike(&tables, &built(&rt, &most)));
}

// Else the tests above would pass whatever is told.
#[test]
fn sheets_of_other_meaning_do_not(rt: HostRuntime) {
    let tables = built(&rt, &written(&rt, LIST));
    let other = written(&rt, r#"list : list "x" | "y" ;"#);
    assert!(rt; !alike(&tables, &built(&rt, &other)));
    let turned = written(&rt, r#"list : "x" list | "x" ;"#);
    assert!(rt; !alike(&tables, &built(&rt, &turned)));
}
