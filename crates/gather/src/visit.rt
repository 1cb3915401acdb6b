ghost use Rattle.std.specs.Prelude.{◌≡◌};
ghost use Rattle.gather.specs.Visits.{kind, lower};

// How far a walk has come with a place. Of two, the lower reaches further down the stack.
#[derive(Clone, Copy, PartialEq, Eq)]
pub(crate) enum Visit {
    Unseen,
    // It is on the stack, and reaches the place that stands at this height.
    Open(u16),
    // Its component is complete.
    Done,
}

impl Visit {
    // Where its kind stands in the order.
    fn kind(self) -> u8
        ensures { result ≡ kind self }
    {
        match self {
            Visit::Unseen => 0,
            Visit::Open(_) => 1,
            Visit::Done => 2,
        }
    }

    // Becomes the other one, if that is lower.
    // By the kinds first: the walk does this at each target, and a derived order costs more.
    pub(crate) fn lower_to(&mut self, other: Visit)
        ensures { self.new ≡ lower self.old other }
    {
        if self.kind() == other.kind() {
            if let (Visit::Open(low), Visit::Open(other_low)) = (*self, other) {
                if other_low < low {
                    *self = Visit::Open(other_low);
                }
            }
        } else if other.kind() < self.kind() {
            *self = other;
        }
    }
}
