// A refusal in numbers, and then in plain words.
use explain::Explanation;
use std::io;
use written::WrittenRefusal;

pub(crate) fn print_refused(
    rt: &HostRuntime,
    text: &[u8],
    refusal: WrittenRefusal,
) -> io::Result<()> {
    println!(rt; "refused {refusal}")?;
    let explanation = Explanation::of(text, refusal);
    println!(rt; "{explanation}")
}
