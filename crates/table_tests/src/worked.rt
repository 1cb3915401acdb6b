// The worked sheets: three that build, and one that is refused.
use super::table::{all_come_to, conflict};
use grammar::Action::Reduce;
use std::test::Fail;

#[test]
fn the_worked_sheets_come_to_this(rt: HostRuntime) -> Result<(), Fail> {
    all_come_to(
        &rt,
        rt.alloc(),
        &[
            (
                r#"line : edit tail ; edit : "move" "wall" ; tail : "size" tail | ;"#,
                Ok(
                    "- s1 - - | 2 3 -; - - s4 - | - - -; acc - - - | - - -; r4 - - s5 | - - 6; \
                    r2 - - r2 | - - -; r4 - - s5 | - - 7; r1 - - - | - - -; r3 - - - | - - -",
                ),
            ),
            // in state 5 word 1 shifts, and word 3 reduces
            (
                r#"s : a "a" | "b" a "c" | "b" "d" "a" ; a : "d" ;"#,
                Ok(
                    "- - s1 - s2 | 3 4; - - - - s5 | - 6; - r4 - - - | - -; acc - - - - | - -; \
                    - s7 - - - | - -; - s8 - r4 - | - -; - - - s9 - | - -; r1 - - - - | - -; \
                    r3 - - - - | - -; r2 - - - - | - -",
                ),
            ),
            (
                r#"s : a "a" | "b" a "c" | b "c" | "b" b "a" ; a : "d" ; b : "d" ;"#,
                Err(conflict(2, 1, Reduce(5), Reduce(6))),
            ),
            (
                r#"s : a s | ; a : b ; b : c ; c : "x" ;"#,
                Ok(
                    "r2 s1 | 2 3 4 5; r5 r5 | - - - -; acc - | - - - -; r2 s1 | 6 3 4 5; \
                    r3 r3 | - - - -; r4 r4 | - - - -; r1 - | - - - -",
                ),
            ),
        ],
    )
}
