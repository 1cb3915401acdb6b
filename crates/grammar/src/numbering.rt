// What is proved of the numbered states. Each function states a theorem in its contract, and answers 0.
ghost use Rattle.grammar.specs.Theorems.{LawfulStates, NumberedStates, OneNumbering, NotCrowded, OneOutcome};
ghost use Rattle.std.specs.Prelude.{◌≡◌};

// The numbered states keep the laws on which the proofs about the machine stand.
pub fn lawful_states() -> u8
    ensures theorem { LawfulStates }
    ensures answer { result ≡ 0 }
{
    0
}

// The numbered states are exactly the sets that moves reach from state 0, each once.
pub fn numbered_states() -> u8
    ensures theorem { NumberedStates }
    ensures answer { result ≡ 0 }
{
    0
}

// A grammar's states are numbered in one way.
pub fn one_numbering() -> u8
    ensures theorem { OneNumbering }
    ensures answer { result ≡ 0 }
{
    0
}

// Where a 97th set is reached, no 96 states are a numbering.
pub fn not_crowded() -> u8
    ensures theorem { NotCrowded }
    ensures answer { result ≡ 0 }
{
    0
}

// At most one outcome fits a grammar.
pub fn one_outcome() -> u8
    ensures theorem { OneOutcome }
    ensures answer { result ≡ 0 }
{
    0
}
