// Nonterminals of no use: the lowest is told.
use super::table::lines_hold;
use std::test::Fail;

static LINES: [&str; 9] = [
    // derives no words
    r#"a : a "x" ; => 5 2"#,
    r#"a : "x" | b ; b : b "y" ; => 5 4"#,
    r#"a : b ; b : c ; c : b "x" ; => 5 2"#,
    // is not reached
    r#"a : "x" ; b : "y" ; => 5 4"#,
    r#"a : "x" ; b : c ; c : b | "y" ; => 5 4"#,
    // both kinds, in either order
    r#"a : "x" | c ; b : "y" ; c : c "z" ; => 5 5"#,
    r#"a : "x" | b ; b : b "z" ; c : "y" ; => 5 5"#,
    r#"a : "x" | b c ; b : b ; c : "y" ; => 5 4"#,
    // before a conflict
    r#"a : a | "x" ; b : "y" ; => 5 4"#,
];

#[test]
fn the_lowest_is_told(rt: HostRuntime) -> Result<(), Fail> {
    lines_hold(&rt, rt.alloc(), &LINES)
}
