ghost use Rattle.sheet.specs.PackedRefusals.{told};
ghost use Rattle.std.specs.Prelude.{◌≡◌};

use std::error::Error;
use std::fmt;

// Why a list of numbers does not open as a packed sheet; docs/REFUSALS.md has each case in full.
#[derive(Clone, Copy, PartialEq, Eq, Debug)]
pub enum PackedRefusal {
    // it is off its layout, at this rule
    Layout { rule: u32 },
}

impl PackedRefusal {
    // The refusal's number.
    pub fn number(&self) -> u8
        ensures { result ≡ (told self.now).number }
    {
        match self {
            PackedRefusal::Layout { .. } => 1,
        }
    }
}

// The number, and the told values behind spaces.
impl fmt::Display for PackedRefusal {
    ghost use Rattle.std.specs.Prelude.{Some};
    ghost use Rattle.grammar.specs.Texts.{told_text};
    ghost use Rattle.sheet.specs.PackedRefusals.{told};

    ghost output = { λ r. Some (told_text (told r)) };

    fn fmt<W: fmt::Write>(&self, f: &mut fmt::Formatter<W>) -> fmt::Result {
        let number = self.number();
        match self {
            PackedRefusal::Layout { rule } => write!(f, "{number} {rule}"),
        }
    }
}

impl Error for PackedRefusal {}
