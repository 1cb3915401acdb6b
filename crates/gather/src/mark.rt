ghost use Rattle.gather.specs.Marks.{either_mark, marked, no_mark};
ghost use Rattle.gather.specs.MarkLaws.{either_none, either_self, either_comm, either_assoc};
ghost use Rattle.std.specs.Prelude.{◌≡◌};

use super::join::Join;

// Yes or no.
#[derive(Clone, Copy, PartialEq, Eq, Debug)]
pub struct Mark(bool);

impl From<bool> for Mark {
    ghost from_gives = { λ answer mark. marked mark ≡ answer };

    // The mark for this answer.
    fn from(answer: bool) -> Mark {
        Mark(answer)
    }
}

impl From<Mark> for bool {
    ghost from_gives = { λ mark answer. answer ≡ marked mark };

    // Whether the mark is yes.
    fn from(mark: Mark) -> bool {
        mark.0
    }
}

impl Join for Mark {
    const NONE: Mark = Mark(false);

    ghost NONE = { no_mark };

    ghost op = { either_mark };

    ghost unit = { either_none };

    ghost idem = { either_self };

    ghost comm = { either_comm };

    ghost assoc = { either_assoc };

    fn join(self, other: Mark) -> Mark {
        Mark(self.0 | other.0)
    }
}
