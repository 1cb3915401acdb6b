// A machine with exactly its tables.
ghost use Rattle.tables.specs.Held.{Exactly};

use super::machine::Machine;
use grammar::Action;

// The cells go by state and word.
#[derive(Drop)]
pub struct Full {
    pub machine: Machine,
    pub cells: [[Option<Action>; 64]; 96],
    ghost exact: { ∥ Exactly machine.rules machine.states cells ∥₁ },
}
