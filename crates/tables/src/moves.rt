// Moves dots over a code.
ghost use Rattle.std.specs.Prelude.{◌≤◌};
ghost use Rattle.grammar.specs.ItemLists.{BehindAt};

use super::rules::Rules;

// The items with the dot before the code, with the dot put behind it.
pub(crate) fn advance(rules: &Rules, items: &[bool; 873], code: u8) -> [bool; 873]
    requires { 1 ≤ code }
    ensures { BehindAt rules.now.right items.now code result }
{
    let mut moved = [false; 873];
    // By number: in a zip with `&mut moved[1..]` the loop's invariant has no name for what is written.
    for (i, is_in) in items[..9 * usize::from(rules.count) + 8].iter().enumerate() {
        if *is_in && rules.right[i] == code {
            moved[i + 1] = true;
        }
    }
    moved
}
