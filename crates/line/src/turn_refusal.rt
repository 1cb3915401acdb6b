// Why a turn of a line, or of a plan, is refused.
ghost use Rattle.line.specs.TurnRefusals.{told};
ghost use Rattle.std.specs.Prelude.{◌≡◌};

use std::error::Error;
use std::fmt;

// Why a turn was refused; docs/REFUSALS.md has each case in full.
#[derive(Clone, Copy, PartialEq, Eq, Debug)]
pub enum TurnRefusal {
    // the tables are blank
    Blank,
    // the designer is above 7
    NoDesigner,
    // the line is judged where an open one is asked for, or open where a judged one is
    Status,
    // the line has 256 words
    FullLine,
    // the word is not 1 to T
    NoWord,
    // the line would note a 769th rule
    Reductions,
    // the machine meets no action
    NoAction,
    // the book has fewer free than the entry is long
    FullBook,
}

impl TurnRefusal {
    // The refusal's number.
    pub fn number(&self) -> u8
        ensures { result ≡ (told self.now).number }
    {
        match self {
            TurnRefusal::Blank => 8,
            TurnRefusal::NoDesigner => 9,
            TurnRefusal::Status => 10,
            TurnRefusal::FullLine => 11,
            TurnRefusal::NoWord => 12,
            TurnRefusal::Reductions => 13,
            TurnRefusal::NoAction => 14,
            TurnRefusal::FullBook => 15,
        }
    }
}

// The number alone: a refused turn tells nothing else.
impl fmt::Display for TurnRefusal {
    ghost use Rattle.std.specs.Prelude.{Some};
    ghost use Rattle.grammar.specs.Texts.{told_text};
    ghost use Rattle.line.specs.TurnRefusals.{told};

    ghost output = { λ r. Some (told_text (told r)) };

    fn fmt<W: fmt::Write>(&self, f: &mut fmt::Formatter<W>) -> fmt::Result {
        write!(f, "{}", self.number())
    }
}

impl Error for TurnRefusal {}
