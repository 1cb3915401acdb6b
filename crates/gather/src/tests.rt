ghost use Rattle.std.specs.List.{slice_get};
ghost use Rattle.std.specs.Prelude.{[], ◌∷◌, Some, None};

use super::gathering::{TooManyPlaces, gather};
use super::join::Join;
use super::mark::Mark;
use super::relation::Relation;
use super::word_set::WordSet;
use std::array::from_fn;
use std::process::Abort;

// Each place has the two next places of its pair.
#[derive(Drop)]
struct Pairs<'a>(&'a [(usize, usize)]);

impl<'a> Relation for Pairs<'a> {
    ghost targets = { λ s p. elim (slice_get s.0.now p) [ None ↦ [] | Some t ↦ t.0 ∷ t.1 ∷ [] ] };

    fn next(&self, place: usize, k: usize) -> Option<usize> {
        let &(first, second) = self.0.get(place)?;
        match k {
            0 => Some(first),
            1 => Some(second),
            _ => None,
        }
    }
}

// Each place begins with its own number alone, and ends with the numbers of these bits.
fn sets(rt: &impl Abort, name: &str, targets: &[(usize, usize)], reached: &[u64]) {
    assert!(rt; reached.len() <= 4);
    let mut values = [
        WordSet::one(0),
        WordSet::one(1),
        WordSet::one(2),
        WordSet::one(3),
    ];
    assert_eq!(rt;
        gather(&mut values[..reached.len()], &Pairs(targets)),
        Ok(()),
        "{name}"
    );
    for (value, bits) in values.iter().zip(reached) {
        // Each number that a set can have.
        for j in 0..64usize {
            assert_eq!(rt; value.has(j), (bits >> j) & 1 == 1, "{name}");
        }
    }
}

// The place `from` alone is marked first, and those that reach it then.
fn marks(rt: &impl Abort, name: &str, targets: &[(usize, usize)], reached: &[u64], from: usize) {
    assert!(rt; reached.len() <= 4 && from < 4);
    let mut values = [Mark::NONE; 4];
    values[from] = Mark::from(true);
    assert_eq!(rt;
        gather(&mut values[..reached.len()], &Pairs(targets)),
        Ok(()),
        "{name}"
    );
    for (value, bits) in values.iter().zip(reached) {
        assert_eq!(rt; bool::from(*value), (bits >> from) & 1 == 1, "{name}");
    }
}

fn both(rt: &impl Abort, name: &str, targets: &[(usize, usize)], reached: &[u64]) {
    sets(rt, name, targets, reached);
    // By number, since it is the place itself that is tried: it is marked, and its bit is looked at.
    for from in 0..reached.len() {
        marks(rt, name, targets, reached, from);
    }
}

#[test]
fn few_places(rt: HostRuntime) {
    both(&rt, "no place", &[], &[]);
    both(&rt, "no next place", &[], &[0b1]);
    both(&rt, "itself, and outside", &[(0, 1)], &[0b1]);
    both(
        &rt,
        "a chain",
        &[(1, 9), (2, 9), (3, 9), (9, 9)],
        &[0b1111, 0b1110, 0b1100, 0b1000],
    );
    both(
        &rt,
        "a cycle, each step twice",
        &[(3, 3), (0, 0), (1, 1), (2, 2)],
        &[0b1111, 0b1111, 0b1111, 0b1111],
    );
    both(
        &rt,
        "a cycle that leads to another",
        &[(1, 9), (0, 3), (3, 2), (2, 9)],
        &[0b1111, 0b1111, 0b1100, 0b1100],
    );
    both(
        &rt,
        "two cycles with a common place",
        &[(1, 9), (2, 0), (1, 3), (9, 3)],
        &[0b1111, 0b1111, 0b1111, 0b1000],
    );
}

// Each of 2,304 places leads to the next, and the last to this one.
fn long(last: usize) -> [(usize, usize); 2304] {
    from_fn(|i| (if i < 2303 { i + 1 } else { last }, 9999))
}

#[test]
fn long_chain(rt: HostRuntime) {
    let targets = long(2304);
    let mut values = [WordSet::NONE; 2305];
    values[2303] = WordSet::one(63);
    assert_eq!(rt;
        gather(&mut values, &Pairs(&targets)),
        Err(TooManyPlaces),
        "2,305 places"
    );
    assert!(rt; !values[0].has(63), "left as they are");
    assert_eq!(rt;
        gather(&mut values[..2304], &Pairs(&targets)),
        Ok(()),
        "2,304 places"
    );
    assert!(rt; values[0].has(63) && values[2302].has(63));
}

#[test]
fn long_cycle(rt: HostRuntime) {
    let targets = long(0);
    let mut values = [Mark::NONE; 2305];
    values[1000] = Mark::from(true);
    assert_eq!(rt;
        gather(&mut values, &Pairs(&targets)),
        Err(TooManyPlaces),
        "2,305 places"
    );
    assert!(rt; !bool::from(values[0]), "left as they are");
    assert_eq!(rt;
        gather(&mut values[..2304], &Pairs(&targets)),
        Ok(()),
        "2,304 places"
    );
    assert!(rt; bool::from(values[0]) && bool::from(values[2303]));
}
