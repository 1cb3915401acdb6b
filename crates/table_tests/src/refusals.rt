// Refusals as they are printed.
use super::table::conflict;
use grammar::Action::Reduce;
use std::test::Fail;
use tables::BuildRefusal::{Limits, Range, States, Useless};

#[test]
fn refusals_are_printed(rt: HostRuntime) -> Result<(), Fail> {
    for (refusal, text) in [
        (Limits, "3"),
        (Range { rule: 7 }, "4 7"),
        (Useless { nonterminal: 6 }, "5 6"),
        (States, "6"),
        (
            conflict(2, 1, Reduce(5), Reduce(6)),
            "7 2 1 reduce 5 reduce 6",
        ),
    ] {
        assert_eq!(rt; refusal.to_string(rt.alloc())?.as_str(), text);
    }
    Ok(())
}
