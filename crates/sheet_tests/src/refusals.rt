// What is printed of the refusals of sheets.
use sheet::{AddRefusal, PackedRefusal};
use std::test::Fail;
use written::WrittenRefusal;

#[test]
fn packed_refusals_are_printed(rt: HostRuntime) -> Result<(), Fail> {
    let refusal = PackedRefusal::Layout { rule: 65536 };
    assert_eq!(rt; refusal.to_string(rt.alloc())?.as_str(), "1 65536");
    Ok(())
}

#[test]
fn add_refusals_are_printed(rt: HostRuntime) -> Result<(), Fail> {
    for (refusal, text) in [
        (AddRefusal::Limits, "3"),
        (AddRefusal::Range { rule: 7 }, "4 7"),
    ] {
        assert_eq!(rt; refusal.to_string(rt.alloc())?.as_str(), text);
    }
    Ok(())
}

#[test]
fn written_refusals_are_printed(rt: HostRuntime) -> Result<(), Fail> {
    for (refusal, text) in [
        (WrittenRefusal::Form { place: 17 }, "2 17"),
        (WrittenRefusal::Limits, "3"),
    ] {
        assert_eq!(rt; refusal.to_string(rt.alloc())?.as_str(), text);
    }
    Ok(())
}
