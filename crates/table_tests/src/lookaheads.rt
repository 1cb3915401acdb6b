// Grammars that tell kinds of lookahead apart.
use super::table::{all_come_to, conflict};
use grammar::Action::Reduce;
use std::test::Fail;

#[test]
fn lookaheads_go_by_state_and_nonterminal(rt: HostRuntime) -> Result<(), Fail> {
    all_come_to(
        &rt,
        rt.alloc(),
        &[
            // builds, though "=" follows `r` somewhere, so that by follows alone state 4 would shift and reduce there
            (
                r#"s : l "=" r | r ; l : "*" r | "id" ; r : l ;"#,
                Ok(
                    "- - s1 s2 | 3 4 5; - - s1 s2 | - 6 7; r4 r4 - - | - - -; acc - - - | - - -; \
                    r5 s8 - - | - - -; r2 - - - | - - -; r5 r5 - - | - - -; r3 r3 - - | - - -; \
                    - - s1 s2 | - 6 9; r1 - - - | - - -",
                ),
            ),
            // builds, though `b` leads to one state from two, so that by that state alone state 4 would shift and reduce at "d"
            (
                r#"s : "a" "g" "d" | "a" a "c" | "b" a "d" | "b" "g" "c" ; a : b ; b : "g" ;"#,
                Ok(
                    "- s1 - - - s2 | 3 - -; - - s4 - - - | - 5 6; - - s7 - - - | - 8 6; \
                    acc - - - - - | - - -; - - - s9 r6 - | - - -; - - - - s10 - | - - -; \
                    - - - r5 r5 - | - - -; - - - r6 s11 - | - - -; - - - s12 - - | - - -; \
                    r1 - - - - - | - - -; r2 - - - - - | - - -; r4 - - - - - | - - -; \
                    r3 - - - - - | - - -",
                ),
            ),
            // is LR(1), but the two states of `e` and `f` have the same items and are one
            (
                r#"s : "a" e "c" | "a" f "d" | "b" f "c" | "b" e "d" ; e : "e" ; f : "e" ;"#,
                Err(conflict(4, 2, Reduce(5), Reduce(6))),
            ),
        ],
    )
}
