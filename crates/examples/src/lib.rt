// Worked examples, which the checker computes.
#![tactic(auto)]

ghost use Rattle.examples.specs.Worked.{Worked};
ghost use Rattle.std.specs.Prelude.{◌≡◌};

// What three small sheets come to.
pub fn worked_examples() -> u8
    ensures answer { result ≡ 0 }
    ensures worked { Worked }
{
    0
}
