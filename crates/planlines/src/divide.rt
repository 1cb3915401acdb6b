// The two parts of the input: a sheet, and the lines behind the divider, the first line that is exactly `=`.
ghost use Rattle.planlines.specs.InputParts.{Divided, DividerBegins, SheetEnds};
ghost use Rattle.std.specs.Prelude.{◌≤◌, ◌↔◌, length, IsTrue};

// Whether a line that is exactly `=` begins at a place.
fn divider_begins(input: &[u8], place: usize) -> bool
    requires { place ≤ length input.now }
    ensures { IsTrue result ↔ DividerBegins input.now place }
{
    let (before, from) = input.split_at(place);
    matches!(before, [] | [.., b'\n']) && matches!(from, [b'='] | [b'=', b'\n', ..])
}

// Where the divider begins, or the input's length.
fn sheet_end(input: &[u8]) -> usize
    ensures { SheetEnds input.now result }
{
    (0..input.len())
        .find(|place| divider_begins(input, *place))
        .unwrap_or(input.len())
}

// What stands before the divider, and what stands behind it and its newline.
pub(crate) fn divide(input: &[u8]) -> (&[u8], &[u8])
    ensures { Divided input.now result.0.now result.1.now }
{
    let (sheet, rest) = input.split_at(sheet_end(input));
    (sheet, rest.get(2..).unwrap_or(&[]))
}
