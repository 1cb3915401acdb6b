ghost use Rattle.std.specs.Prelude.{◌≡◌};
ghost use Rattle.written.specs.WrittenRefusals.{told};

use bounded::Full;
use std::error::Error;
use std::fmt;

// Why a text does not open as a written sheet; docs/REFUSALS.md has each case in full.
#[derive(Clone, Copy, PartialEq, Eq, Debug)]
pub enum WrittenRefusal {
    // something at this place cannot stand there, or heads nothing
    Form { place: usize },
    // a count or the length of a right side is outside its limits
    Limits,
}

impl WrittenRefusal {
    // The refusal's number. A cast gives none, since a variant has a field.
    pub fn number(&self) -> u8
        ensures { result ≡ (told self.now).number }
    {
        match self {
            WrittenRefusal::Form { .. } => 2,
            WrittenRefusal::Limits => 3,
        }
    }
}

// The number, and the told values behind spaces.
impl fmt::Display for WrittenRefusal {
    ghost use Rattle.std.specs.Prelude.{Some};
    ghost use Rattle.grammar.specs.Texts.{told_text};
    ghost use Rattle.written.specs.WrittenRefusals.{told};

    ghost output = { λ r. Some (told_text (told r)) };

    fn fmt<W: fmt::Write>(&self, f: &mut fmt::Formatter<W>) -> fmt::Result {
        let number = self.number();
        match self {
            WrittenRefusal::Form { place } => write!(f, "{number} {place}"),
            WrittenRefusal::Limits => write!(f, "{number}"),
        }
    }
}

impl Error for WrittenRefusal {}

// What does not fit is outside the limits.
impl From<Full> for WrittenRefusal {
    ghost use Rattle.std.specs.Prelude.{◌≡◌};
    ghost use Rattle.written.specs.WrittenRefusals.{limits_told, told};

    ghost from_gives = { λ _ r. told r ≡ limits_told };

    fn from(_full: Full) -> WrittenRefusal {
        WrittenRefusal::Limits
    }
}
