// Completes sets of items: behind a dot before a nonterminal stand all its rules, with the dot in front.
// Sets come beside the rules, since they are kept and compared without them.
ghost use Rattle.std.specs.Prelude.{◌≡◌, ℕ, ◌+◌, ◌<◌, ◌≤◌, Bool, true, false, List};
ghost use Rattle.grammar.specs.ItemLists.{CompletesAt, In};
ghost use Rattle.tables.specs.Closing.{Ahead, Full, Grown, Waiting, falses};

use super::rules::Rules;

// The codes behind the dots of a set. Code 0 is not to be looked at.
pub(crate) fn waiting(rules: &Rules, items: &[bool; 873]) -> [bool; 88]
    ensures { Waiting rules.now items.now result }
{
    let mut ahead = [false; 88];
    let end = 9 * usize::from(rules.count) + 9;
    for (is_in, code) in items[..end].iter().zip(&rules.right) {
        if *is_in {
            ahead[usize::from(*code)] = true;
        }
    }
    ahead
}

// Adds the first code of each rule whose left side is ahead; whether there was one to add.
fn sweep(rules: &Rules, ahead: &mut [bool; 88]) -> bool
    ensures grown { (xs : List Bool) → Grown rules.now xs ahead.old → Grown rules.now xs ahead.new }
    ensures fewer { result ≡ true → falses ahead.new < falses ahead.old }
    ensures full { result ≡ false → Full rules.now ahead.new (rules.now.count + 1) }
{
    let mut more = false;
    // The rules' numbers are what is looked at here: a rule's items stand from 9 times its number on.
    for q in 1..usize::from(rules.count) + 1 {
        let first = usize::from(rules.right[9 * q]);
        if ahead[usize::from(rules.left[q])] && !ahead[first] {
            ahead[first] = true;
            more = true;
        }
    }
    more
}

// The codes behind the dots of a set completed.
fn ahead_of(rules: &Rules, items: &[bool; 873]) -> [bool; 88]
    ensures sound { (X : ℕ) → In result X → Ahead rules.now items.now X }
    ensures whole { (X : ℕ) → 1 ≤ X → Ahead rules.now items.now X → In result X }
{
    let mut ahead = waiting(rules, items);
    while sweep(rules, &mut ahead) {}
    ahead
}

// Completes a set.
pub(crate) fn complete(rules: &Rules, items: &mut [bool; 873])
    ensures { CompletesAt rules.now.left rules.now.right rules.now.count items.old items.new }
{
    let ahead = ahead_of(rules, items);
    // By rule numbers, as above.
    for q in 1..usize::from(rules.count) + 1 {
        if ahead[usize::from(rules.left[q])] {
            items[9 * q] = true;
        }
    }
}
