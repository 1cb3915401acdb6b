// Looks sets of items up among the states.
ghost use Rattle.std.specs.Prelude.{◌≡◌, ℕ, ◌<◌, ◌≤◌, ◌≢◌, Decides, MatchOption};
ghost use Rattle.grammar.specs.StateLists.{Placed, state_at};
ghost use Rattle.tables.specs.Fingerprints.{Printed, cubes};

use super::states::States;

// States, each with the fingerprint of its set over the items below `end`.
// The fingerprints stand beside the sets, and not with them, since the states outlive them.
#[derive(Drop)]
pub(crate) struct Lookup {
    pub states: States,
    prints: [u64; 96],
    end: usize,
    ghost within: { end ≤ 873 },
    ghost printed: { Printed end states.count states.sets prints },
}

// The sum of the cubes of the item numbers below `end` that are in.
fn fingerprint(items: &[bool; 873], end: usize) -> u64
    requires { end ≤ 873 }
    ensures { result ≡ cubes end items.now }
{
    let mut sum = 0;
    for (i, is_in) in items[..end].iter().enumerate() {
        if *is_in {
            // A cast, since there is no `From` from `usize` to `u64`.
            let n = i as u64;
            sum += n * n * n;
        }
    }
    sum
}

// Whether a set and its fingerprint are these. Sets are compared only where their fingerprints are equal.
fn alike(set: &[bool; 873], other: u64, items: &[bool; 873], print: u64) -> bool
    ensures { Decides result ((other ≡ print) × (set.now ≡ items.now)) }
{
    other == print && set == items
}

impl Lookup {
    // One state, with this set.
    pub(crate) fn new(items: [bool; 873], end: usize) -> Lookup
        requires { end ≤ 873 }
        ensures count { result.states.count ≡ 1 }
        ensures set { state_at result.states.sets 0 ≡ items }
    {
        let mut states = States::new();
        let mut prints = [0; 96];
        prints[0] = fingerprint(&items, end);
        states.sets[0] = items;
        states.count = 1;
        Lookup {
            states,
            prints,
            end,
        }
    }

    // The first state with this set, which has this fingerprint.
    fn find(&self, items: &[bool; 873], print: u64) -> Option<usize>
        requires { print ≡ cubes self.now.end items.now }
        ensures { MatchOption result ((j : ℕ) → j < self.now.states.count → state_at self.now.states.sets j ≢ items.now) (λ s. (s < self.now.states.count) × (state_at self.now.states.sets s ≡ items.now)) }
    {
        let sets = &self.states.sets[..self.states.count];
        sets.iter()
            .zip(&self.prints)
            .position(|(set, other)| alike(set, *other, items, print))
    }

    // The number of a set, which is put at the end if it is new; none if there is no room for it.
    pub(crate) fn place(&mut self, items: &[bool; 873]) -> Option<usize>
        ensures placed { MatchOption result (Placed items.now self.old.states.count self.old.states.sets self.new.states.count self.new.states.sets 96) (λ t. (t < 96) × Placed items.now self.old.states.count self.old.states.sets self.new.states.count self.new.states.sets t) }
        ensures kept { self.new.states.gotos ≡ self.old.states.gotos }
    {
        let print = fingerprint(items, self.end);
        if let Some(s) = self.find(items, print) {
            return Some(s);
        }
        let t = self.states.count;
        if t == 96 {
            return None;
        }
        self.prints[t] = print;
        self.states.sets[t] = *items;
        self.states.count = t + 1;
        Some(t)
    }
}
