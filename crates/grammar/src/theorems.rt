// What is proved of derivations, the machine and the lines. Each function states a theorem in its contract, and answers 0.
ghost use Rattle.grammar.specs.Theorems.{Postorder, Stepwise, Completeness, Unambiguity, Soundness, NeverStuck};
ghost use Rattle.grammar.specs.Theorems.{ViablePrefix, Taken, JudgedGood, JudgedRules, WordTaken, Depth};
ghost use Rattle.std.specs.Prelude.{◌≡◌};

// A list of rules is a rightmost derivation exactly when its reverse is the post-order of a tree.
pub fn postorder() -> u8
    ensures theorem { Postorder }
    ensures answer { result ≡ 0 }
{
    0
}

// Replacing the last nonterminal step by step finds just the rightmost derivations.
pub fn stepwise() -> u8
    ensures theorem { Stepwise }
    ensures answer { result ≡ 0 }
{
    0
}

// The machine accepts every sentence, with the rules of its tree.
pub fn completeness() -> u8
    ensures theorem { Completeness }
    ensures answer { result ≡ 0 }
{
    0
}

// Where no cell has two actions, a sentence has one derivation.
pub fn unambiguity() -> u8
    ensures theorem { Unambiguity }
    ensures answer { result ≡ 0 }
{
    0
}

// What the machine accepts is a sentence, and the rules it noted, reversed, are its derivation.
pub fn soundness() -> u8
    ensures theorem { Soundness }
    ensures answer { result ≡ 0 }
{
    0
}

// Wherever the machine stands, a reduction finds its states on the stack and its goto.
pub fn never_stuck() -> u8
    ensures theorem { NeverStuck }
    ensures answer { result ≡ 0 }
{
    0
}

// What the machine has taken begins a sentence, where every nonterminal is productive.
pub fn viable_prefix() -> u8
    ensures theorem { ViablePrefix }
    ensures answer { result ≡ 0 }
{
    0
}

// The machine gets behind the words with which some sentence begins, whatever comes next.
pub fn taken() -> u8
    ensures theorem { Taken }
    ensures answer { result ≡ 0 }
{
    0
}

// An open line is judged good exactly when its words are a sentence of at most 768 derivation steps.
pub fn judged_good() -> u8
    ensures theorem { JudgedGood }
    ensures answer { result ≡ 0 }
{
    0
}

// The rules of a line judged good, reversed, are the derivation of its words.
pub fn judged_rules() -> u8
    ensures theorem { JudgedRules }
    ensures answer { result ≡ 0 }
{
    0
}

// A word that comes to an open line below its limits is taken exactly when some sentence begins so.
pub fn word_taken() -> u8
    ensures theorem { WordTaken }
    ensures answer { result ≡ 0 }
{
    0
}

// An open line is within its limits, and has at most one state more than words and rules.
pub fn depth() -> u8
    ensures theorem { Depth }
    ensures answer { result ≡ 0 }
{
    0
}
