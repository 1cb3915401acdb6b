// A worked example of an entry. The function states it in its contract, and answers 0.
ghost use Rattle.plan.specs.WorkedEntry.{WorkedEntry};
ghost use Rattle.std.specs.Prelude.{◌≡◌};

// The entry of a line of three words and four rules, where 10 numbers are free and where 9 are.
pub fn worked_entry() -> u8
    ensures theorem { WorkedEntry }
    ensures answer { result ≡ 0 }
{
    0
}
