use super::Action;
use std::test::Fail;

#[test]
fn actions_are_printed(rt: HostRuntime) -> Result<(), Fail> {
    for (action, text) in [
        (Action::Shift(17), "shift 17"),
        (Action::Accept, "accept"),
        (Action::Reduce(5), "reduce 5"),
    ] {
        assert_eq!(rt; action.to_string(rt.alloc())?.as_str(), text);
    }
    Ok(())
}
