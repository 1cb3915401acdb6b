ghost use Rattle.std.specs.Prelude.{◌≡◌, ℕ, ◌<◌, ◌≤◌, List, [], All, length};
ghost use Rattle.gather.specs.Gathered.{Gathered};
ghost use Rattle.gather.specs.Stack.{LeftStack, Completed, Ready, Sound, Walked, folded, pushed, snap, value};

use super::join::Join;
use super::relation::{Relation, Targets};
use super::stack::Stack;
use super::visit::Visit;

// The most places that can be gathered.
pub const PLACES: usize = 2304;

// A walk over the places of a lent list.
#[derive(Drop)]
pub(crate) struct Walk<'a, J> {
    values: &'a mut [J],
    // by place too, but the lent list holds values alone
    visits: [Visit; PLACES],
    // the places whose component is not complete yet
    stack: Stack,
}

// Gives one value to each of these places, whose component is complete.
fn complete<J: Join>(values: &mut [J], visits: &mut [Visit], places: &[usize], value: J)
    requires { All (λ p. (p < length values.old) × (p < length visits.old)) places.now }
    ensures { Completed J.NONE value places.now values.old values.new visits.old visits.new }
{
    for &place in places {
        visits[place] = Visit::Done;
        values[place] = value;
    }
}

impl<'a, J: Join> Walk<'a, J> {
    // A walk that has seen nothing.
    pub(crate) fn new(values: &'a mut [J]) -> Walk<'a, J>
        ensures lent { result.values.ghost_name ≡ values.entry.ghost_name }
        ensures held { result.values.now ≡ values.old }
        ensures empty { result.stack ≡ [] }
        ensures sound { (targets : ℕ → List ℕ)
            → length values.old ≤ 2304
            → Sound J.NONE J.op targets result.values.now (snap result) }
    {
        Walk {
            values,
            visits: [Visit::Unseen; PLACES],
            stack: Stack::new(),
        }
    }

    // Puts a place onto the stack.
    fn push(&mut self, place: usize)
        requires { (length self.old.stack < 2304) × (place < length self.old.visits) }
        ensures { snap self.new ≡ pushed (snap self.old) place }
    {
        self.visits[place] = Visit::Open(self.stack.height());
        self.stack.push(place);
    }

    // Takes the visit and the value of `target` into those of `place`.
    fn fold(&mut self, place: usize, target: usize)
        requires inside { (place < length self.old.values.now) × (target < length self.old.values.now) }
        requires few { length self.old.values.now ≤ 2304 }
        ensures { snap self.new ≡ folded J.NONE J.op (snap self.old) place target }
    {
        let visit = self.visits[target];
        self.visits[place].lower_to(visit);
        self.values[place] = self.values[place].join(self.values[target]);
    }

    // Completes the component of a place that stands at height `low`, which leaves the stack: it has one value.
    fn close(&mut self, place: usize, low: u16)
        requires order { low ≤ length self.old.stack }
        requires value { place < length self.old.values.now }
        requires inside { All (λ p. p < length self.old.values.now) self.old.stack }
        requires few { length self.old.values.now ≤ 2304 }
        ensures { LeftStack J.NONE (value J.NONE (snap self.old) place) low
            (snap self.old) (snap self.new) }
    {
        let value = self.values[place];
        complete(self.values, &mut self.visits, self.stack.above(low), value);
        self.stack.cut(low);
    }

    // Walks from a place that was not seen yet over all that it reaches and that was not seen yet.
    fn traverse<R: Relation>(&mut self, place: usize, relation: &R)
        requires { Ready J.NONE J.op (R.targets relation.now) (snap self.old) place }
        ensures { (seeds : List J)
            → Sound J.NONE J.op (R.targets relation.now) seeds (snap self.old)
            → Walked J.NONE J.op (R.targets relation.now) seeds
            (snap self.old) (snap self.new) place }
    {
        let height = self.stack.height();
        self.push(place);
        for target in Targets::of(relation, place) {
            if target < self.values.len() {
                if self.visits[target] == Visit::Unseen {
                    self.traverse(target, relation);
                }
                self.fold(place, target);
            }
        }
        if self.visits[place] == Visit::Open(height) {
            self.close(place, height);
        }
    }

    // Walks from every place that was not seen on the way from an earlier one.
    pub(crate) fn walk_all<R: Relation>(&mut self, relation: &R)
        requires sound { Sound J.NONE J.op (R.targets relation.now)
            self.old.values.now (snap self.old) }
        requires empty { self.old.stack ≡ [] }
        ensures lent { self.new.values.ghost_name ≡ self.old.values.ghost_name }
        ensures gathered { Gathered J.NONE J.op (R.targets relation.now)
            self.old.values.now self.new.values.now }
    {
        // by number, since the walk as a whole goes on from each place
        for place in 0..self.values.len() {
            if self.visits[place] == Visit::Unseen {
                self.traverse(place, relation);
            }
        }
    }
}
