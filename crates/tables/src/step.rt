ghost use Rattle.std.specs.Prelude.{◌<◌};

use bounded::BoundedList;

// A step from place to place.
#[derive(Clone, Copy)]
pub struct Step {
    pub source: u16,
    pub target: u16,
    ghost source_inside: { source < 2304 },
    ghost target_inside: { target < 2304 },
}

// There are at most 96 states, 96 rules and 8 dots to give one step each.
pub type Steps = BoundedList<Step, 73728>;
