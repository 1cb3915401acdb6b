// A refusal in numbers, and then in plain words.
use super::reason::Reason;
use explain::Explanation;
use std::io;
use tables::BuildRefusal;
use written::{WrittenRefusal, WrittenSheet};

// A sheet that does not open.
pub(crate) fn print_unopened(
    rt: &HostRuntime,
    text: &[u8],
    refusal: WrittenRefusal,
) -> io::Result<()> {
    println!(rt; "refused {refusal}")?;
    let explanation = Explanation::of(text, refusal);
    println!(rt; "{explanation}")
}

// A sheet that opens, and has no tables. Not inlined, so that a sheet that builds does not touch the stack that telling a conflict takes.
#[inline(never)]
pub(crate) fn print_unbuilt(
    rt: &HostRuntime,
    sheet: &WrittenSheet<'_>,
    refusal: BuildRefusal,
) -> io::Result<()> {
    println!(rt; "refused {refusal}")?;
    print!(rt; "{}", Reason { sheet, refusal })
}
