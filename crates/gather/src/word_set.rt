ghost use Rattle.std.specs.Prelude.{◌≡◌, ℕ, ◌&&◌, ◌||◌, ◌==◌, nat_lt};
ghost use Rattle.gather.specs.Members.{has, no_members, unite};
ghost use Rattle.gather.specs.Sets.{unite_none, unite_self, unite_comm, unite_assoc};

use super::join::Join;

// A set of numbers from 0 to 63: the bit at place k says whether k is a member.
#[derive(Clone, Copy, PartialEq, Eq, Debug)]
pub struct WordSet(u64);

impl WordSet {
    // The set of this number alone; empty if the number is above 63.
    pub fn one(number: usize) -> WordSet
        ensures { (k : ℕ) → has result k ≡ (nat_lt number 64 && k == number) }
    {
        if number > 63 {
            return WordSet::NONE;
        }
        WordSet(1 << number)
    }

    // Whether the number is a member.
    pub fn has(self, number: usize) -> bool
        ensures { result ≡ has self number }
    {
        number < 64 && (self.0 >> number) & 1 == 1
    }

    // What is a member of either.
    #[tactic(auto, using(crate::specs::Sets::has_unite))]
    pub fn union(self, other: WordSet) -> WordSet
        ensures is { result ≡ unite self other }
        ensures members { (k : ℕ) → has result k ≡ (has self k || has other k) }
    {
        WordSet(self.0 | other.0)
    }
}

impl Join for WordSet {
    // The set without members.
    const NONE: WordSet = WordSet(0);

    ghost NONE = { no_members };

    ghost op = { unite };

    ghost unit = { unite_none };

    ghost idem = { unite_self };

    ghost comm = { unite_comm };

    ghost assoc = { unite_assoc };

    fn join(self, other: WordSet) -> WordSet {
        self.union(other)
    }
}
