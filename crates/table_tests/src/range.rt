// Codes out of range: the lowest rule that has one is told.
use super::table::{comes_to, packed};
use std::test::Fail;
use tables::BuildRefusal;
use tables::BuildRefusal::{Limits, Range, Useless};

// Each is the sheet of `all_in_range` but for some codes, and here and there a rule or a nonterminal more.
static CASES: [(&[u16], BuildRefusal); 15] = [
    // right sides
    (&[2, 1, 2, 5, 8, 3, 1, 0, 3, 1, 2], Range { rule: 1 }),
    (&[2, 1, 2, 5, 8, 3, 1, 4, 3, 1, 2], Range { rule: 1 }),
    (&[2, 1, 2, 5, 8, 3, 1, 257, 3, 1, 2], Range { rule: 1 }),
    (&[2, 1, 2, 5, 8, 3, 1, 1, 3, 1, 0], Range { rule: 2 }),
    (
        &[2, 1, 2, 5, 8, 3, 1, 1, 3, 8, 2, 2, 2, 2, 2, 2, 2, 4],
        Range { rule: 2 },
    ),
    // left sides
    (&[2, 1, 2, 5, 8, 0, 1, 1, 3, 1, 2], Range { rule: 1 }),
    (&[2, 1, 2, 5, 8, 2, 1, 1, 3, 1, 2], Range { rule: 1 }),
    (&[2, 1, 2, 5, 8, 4, 1, 1, 3, 1, 2], Range { rule: 1 }),
    (&[2, 1, 2, 5, 8, 259, 1, 1, 3, 1, 2], Range { rule: 1 }),
    (&[2, 1, 2, 5, 7, 3, 0, 4, 0], Range { rule: 2 }),
    // two rules
    (&[2, 1, 2, 5, 8, 3, 1, 4, 4, 1, 2], Range { rule: 1 }),
    (
        &[2, 1, 3, 6, 9, 12, 3, 1, 1, 3, 1, 4, 2, 1, 0],
        Range { rule: 2 },
    ),
    // behind the limits
    (
        &[2, 1, 2, 5, 8, 3, 1, 4, 3, 9, 1, 1, 1, 1, 1, 1, 1, 1, 1],
        Limits,
    ),
    // before a nonterminal of no use
    (&[2, 2, 2, 5, 8, 3, 1, 5, 3, 1, 2], Range { rule: 1 }),
    (
        &[2, 2, 2, 5, 8, 3, 1, 1, 3, 1, 2],
        Useless { nonterminal: 4 },
    ),
];

#[test]
fn the_lowest_is_told(rt: HostRuntime) -> Result<(), Fail> {
    for (numbers, refusal) in &CASES {
        comes_to(&rt, rt.alloc(), &packed(&rt, numbers), Err(*refusal))?;
    }
    Ok(())
}

#[test]
fn all_in_range(rt: HostRuntime) -> Result<(), Fail> {
    comes_to(
        &rt,
        rt.alloc(),
        &packed(&rt, &[2, 1, 2, 5, 8, 3, 1, 1, 3, 1, 2]),
        Ok("- s1 s2 | 3; r1 - - | -; r2 - - | -; acc - - | -"),
    )
}
