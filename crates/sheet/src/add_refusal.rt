ghost use Rattle.sheet.specs.AddRefusals.{told};
ghost use Rattle.std.specs.Prelude.{◌≡◌};

use bounded::Full;
use std::error::Error;
use std::fmt;

// Why a rule is not added to a supplement; docs/REFUSALS.md has each case in full.
#[derive(Clone, Copy, PartialEq, Eq, Debug)]
pub enum AddRefusal {
    // a count or the length of the right side is outside its limits
    Limits,
    // the rule, which would have this number, has a code out of range
    Range { rule: u16 },
}

impl AddRefusal {
    // The refusal's number. A cast gives none, since a variant has a field.
    pub fn number(&self) -> u8
        ensures { result ≡ (told self.now).number }
    {
        match self {
            AddRefusal::Limits => 3,
            AddRefusal::Range { .. } => 4,
        }
    }
}

// The number, and the told values behind spaces.
impl fmt::Display for AddRefusal {
    ghost use Rattle.std.specs.Prelude.{Some};
    ghost use Rattle.grammar.specs.Texts.{told_text};
    ghost use Rattle.sheet.specs.AddRefusals.{told};

    ghost output = { λ r. Some (told_text (told r)) };

    fn fmt<W: fmt::Write>(&self, f: &mut fmt::Formatter<W>) -> fmt::Result {
        let number = self.number();
        match self {
            AddRefusal::Limits => write!(f, "{number}"),
            AddRefusal::Range { rule } => write!(f, "{number} {rule}"),
        }
    }
}

impl Error for AddRefusal {}

// What does not fit is outside the limits.
impl From<Full> for AddRefusal {
    ghost use Rattle.sheet.specs.AddRefusals.{limits_told, told};
    ghost use Rattle.std.specs.Prelude.{◌≡◌};

    ghost from_gives = { λ _ r. told r ≡ limits_told };

    fn from(_full: Full) -> AddRefusal {
        AddRefusal::Limits
    }
}
