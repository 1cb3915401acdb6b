// Nonterminals that come back in their own rules.
use super::table::{all_come_to, conflict};
use grammar::Action::{Reduce, Shift};
use std::test::Fail;

#[test]
fn recursion_builds_unless_hidden_at_the_left(rt: HostRuntime) -> Result<(), Fail> {
    all_come_to(
        &rt,
        rt.alloc(),
        &[
            // at the left
            (
                r#"a : a "x" | "x" ;"#,
                Ok("- s1 | 2; r2 r2 | -; acc s3 | -; r1 r1 | -"),
            ),
            (r#"a : a "x" | ;"#, Ok("r2 r2 | 1; acc s2 | -; r1 r1 | -")),
            (
                r#"a : b "x" ; b : a "y" | "z" ;"#,
                Ok(
                    "- - - s1 | 2 3; - r3 - - | - -; acc - s4 - | - -; - s5 - - | - -; \
                    - r2 - - | - -; r1 - r1 - | - -",
                ),
            ),
            (
                r#"a : "y" | a b "x" ; b : ;"#,
                Ok("- s1 - | 2 -; r1 - r1 | - -; acc - r3 | - 3; - - s4 | - -; r2 - r2 | - -"),
            ),
            // at the right
            (
                r#"a : "x" a | "x" ;"#,
                Ok("- s1 | 2; r2 s1 | 3; acc - | -; r1 - | -"),
            ),
            (
                r#"a : "x" a | ;"#,
                Ok("r2 s1 | 2; r2 s1 | 3; acc - | -; r1 - | -"),
            ),
            // inside
            (
                r#"s : "(" s ")" s | ;"#,
                Ok("r2 s1 - | 2; - s1 r2 | 3; acc - - | -; - - s4 | -; r2 s1 r2 | 5; r1 - r1 | -"),
            ),
            // hidden at the left behind an empty nonterminal
            (
                r#"a : b a "x" | "y" ; b : ;"#,
                Err(conflict(0, 2, Shift(1), Reduce(3))),
            ),
            (
                r#"a : b c "x" ; b : ; c : a "y" | "z" ;"#,
                Err(conflict(2, 3, Shift(3), Reduce(2))),
            ),
            // hidden at the right
            (
                r#"a : b c "x" ; b : ; c : "z" a | ;"#,
                Ok(
                    "- r2 r2 | 1 2 -; acc - - | - - -; - r4 s3 | - - 4; - r2 r2 | 5 2 -; \
                    - s6 - | - - -; - r3 - | - - -; r1 r1 - | - - -",
                ),
            ),
            // all nonterminals derive the empty list
            (
                r#"a : b ; b : c ; c : | "x" ;"#,
                Ok("r3 s1 | 2 3 4; r4 - | - - -; acc - | - - -; r1 - | - - -; r2 - | - - -"),
            ),
        ],
    )
}
