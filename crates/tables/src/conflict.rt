ghost use Rattle.tables.specs.Rows.{lowest_of};
ghost use Rattle.std.specs.Prelude.{◌≡◌};

use grammar::Action;

// A word with two actions, and the first two.
#[derive(Clone, Copy)]
pub struct Conflict {
    pub word: u8,
    pub first: Action,
    pub second: Action,
}

// The one with the lower word; the old one if they have the same.
pub(crate) fn lowest(old: Option<Conflict>, more: Conflict) -> Option<Conflict>
    ensures { result ≡ lowest_of old more }
{
    old.filter(|conflict| conflict.word <= more.word)
        .or(Some(more))
}
