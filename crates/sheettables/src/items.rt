use super::item::{Item, length_of};
use sheet::RuleSheet;
use std::fmt;
use written::WrittenSheet;

fn write_items_of<'a, W: fmt::Write, F: Fn(Item<'a>) -> bool>(
    f: &mut fmt::Formatter<W>,
    sheet: &'a WrittenSheet<'a>,
    rule: u16,
    is_picked: &F,
) -> fmt::Result
    requires { F.IsAlwaysCallable is_picked.now }
{
    // By number here and below: items are picked by rule and dot.
    for dot in 0..=length_of(sheet, rule) {
        let item = Item { sheet, rule, dot };
        if is_picked(item) {
            writeln!(f, "  {item}")?;
        }
    }
    Ok(())
}

// The items that are picked, one a line, by rising rule and then by rising dot.
pub(crate) fn write_items<'a, W: fmt::Write, F: Fn(Item<'a>) -> bool + Drop>(
    f: &mut fmt::Formatter<W>,
    sheet: &'a WrittenSheet<'a>,
    is_picked: F,
) -> fmt::Result
    requires { F.IsAlwaysCallable is_picked }
{
    for rule in 0..=sheet.rules() {
        write_items_of(f, sheet, rule, &is_picked)?;
    }
    Ok(())
}
