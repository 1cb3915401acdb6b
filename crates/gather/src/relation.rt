ghost use Rattle.std.specs.Prelude.{◌≡◌, ℕ, ◌+◌, ◌-◌, ◌^◌, ◌<◌, List, length, MatchOption};
ghost use Rattle.std.specs.List.{slice_get};
ghost use Rattle.std.specs.Iterator.{at_most};

// A relation between places, by the list of next places that each place has.
pub trait Relation {
    ghost targets: { Self → ℕ → List ℕ };

    // The `k`-th next place of `place`, from 0; none exactly behind the last.
    // By number, since a trait has no associated iterator that borrows.
    fn next(&self, place: usize, k: usize) -> Option<usize>
        ensures told { result ≡ slice_get (targets self.now place) k }
        ensures short { length (targets self.now place) < 2 ^ 64 };
}

// The next places of a place, one after the other.
#[derive(Drop)]
pub(crate) struct Targets<'a, R> {
    relation: &'a R,
    place: usize,
    k: usize,
}

impl<'a, R: Relation> Targets<'a, R> {
    // From the first on.
    pub(crate) fn of(relation: &'a R, place: usize) -> Targets<'a, R>
        ensures { result ≡ record { relation = relation.entry; place = place; k = 0 } }
    {
        Targets {
            relation,
            place,
            k: 0,
        }
    }
}

impl<'a, R: Relation> Iterator for Targets<'a, R> {
    type Item = usize;

    ghost next_gives = { λ s r t. (r ≡ slice_get (R.targets s.relation.now s.place) s.k) × MatchOption r (t ≡ s) (λ _. t ≡ record s { k = s.k + 1 }) };

    ghost remaining = { λ s. at_most (length (R.targets s.relation.now s.place) - s.k) };

    fn next(&mut self) -> Option<usize> {
        let target = self.relation.next(self.place, self.k)?;
        self.k += 1;
        Some(target)
    }
}
