// Conflicts: lowest state, then lowest word, and of its actions the first two.
use super::table::lines_hold;
use std::test::Fail;

static LINES: [&str; 15] = [
    // a nonterminal that derives itself
    r#"a : a | "x" ; => 7 2 0 accept reduce 1"#,
    r#"a : b | "x" ; b : a ; => 7 2 0 accept reduce 3"#,
    r#"a : "y" b ; b : b | "x" ; => 7 4 0 reduce 1 reduce 2"#,
    r#"a : "y" b ; b : c | "x" ; c : b ; => 7 4 0 reduce 1 reduce 4"#,
    // a sentence with two derivations
    r#"s : "if" s | "if" s "else" s | "x" ; => 7 4 2 shift 5 reduce 1"#,
    r#"e : e "+" e | "x" ; => 7 4 1 shift 3 reduce 1"#,
    r#"a : a a | "x" ; => 7 3 1 shift 1 reduce 1"#,
    r#"s : "x" | "x" ; => 7 1 0 reduce 1 reduce 2"#,
    r#"s : a b ; a : "x" | ; b : "x" | ; => 7 0 1 shift 1 reduce 3"#,
    // three actions in the cell
    r#"s : a | b | c ; c : "x" ; b : "x" ; a : "x" ; => 7 1 0 reduce 4 reduce 5"#,
    r#"s : a "y" | b "y" | "x" "y" ; a : "x" ; b : "x" ; => 7 1 1 shift 5 reduce 4"#,
    r#"s : s | a | "x" ; a : s ; => 7 2 0 accept reduce 1"#,
    // another in state 6 at the end mark
    r#"s : a "y" | b "y" | "z" c | "z" d ; a : "x" ; b : "x" ; c : "x" ; d : "x" ; => 7 2 1 reduce 5 reduce 6"#,
    // another at word 1
    r#"s : a "y" | b "y" | a | b ; a : "x" ; b : "x" ; => 7 1 0 reduce 5 reduce 6"#,
    // another at word 3
    r#"s : "x" a "y" | "x" b "y" | "x" a "z" | "x" b "z" ; a : "x" ; b : "x" ; => 7 3 2 reduce 5 reduce 6"#,
];

#[test]
fn the_first_conflict_is_told(rt: HostRuntime) -> Result<(), Fail> {
    lines_hold(&rt, rt.alloc(), &LINES)
}
