ghost use Rattle.std.specs.Prelude.{◌≡◌, ◌<◌, ◌≤◌, Some, codes, length};
ghost use Rattle.gather.specs.Gathered.{Gathered};

use super::join::Join;
use super::relation::Relation;
use super::walk::{PLACES, Walk};
use std::error::Error;
use std::fmt;

// A list of more than `PLACES` places, which can't be gathered.
#[derive(Clone, Copy, PartialEq, Eq, Debug)]
pub struct TooManyPlaces;

impl fmt::Display for TooManyPlaces {
    ghost output = { λ _. Some (codes "more than 2304 places") };

    fn fmt<W: fmt::Write>(&self, f: &mut fmt::Formatter<W>) -> fmt::Result {
        f.write_str("more than 2304 places")
    }
}

impl Error for TooManyPlaces {}

// Each place ends with the join of its own seed and the seeds of all places that it reaches.
// A list of more than 2,304 places is refused, and left as it is.
// This is the Digraph walk of DeRemer and Pennello: each place is walked from once, and its list is told once.
pub fn gather<J: Join, R: Relation>(values: &mut [J], relation: &R) -> Result<(), TooManyPlaces>
    ensures refused { 2304 < length values.old → (result ≡ Err record {}) × (values.new ≡ values.old) }
    ensures gathered { length values.old ≤ 2304
        → (result ≡ Ok tt) × Gathered J.NONE J.op (R.targets relation.now) values.old values.new }
{
    if values.len() > PLACES {
        return Err(TooManyPlaces);
    }
    Walk::new(values).walk_all(relation);
    Ok(())
}
