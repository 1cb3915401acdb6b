ghost use Rattle.std.specs.Prelude.{◌≡◌};
ghost use Rattle.tables.specs.BuildRefusals.{told};

use grammar::Action;
use std::error::Error;
use std::fmt;

// Why a sheet has no tables; docs/REFUSALS.md has each case in full.
#[derive(Clone, Copy, PartialEq, Eq, Debug)]
pub enum BuildRefusal {
    // a count or the length of a right side is outside its limits
    Limits,
    // this rule has a code out of range
    Range {
        rule: u16,
    },
    // this nonterminal derives no words, or is not reached from the start
    Useless {
        nonterminal: u16,
    },
    // a 97th state would be needed
    States,
    // two actions in the cell of a state and a word
    Conflict {
        state: u8,
        word: u8,
        first: Action,
        second: Action,
    },
}

impl BuildRefusal {
    // The refusal's number. A cast gives none, since variants have fields.
    pub fn number(&self) -> u8
        ensures { result ≡ (told self.now).number }
    {
        match self {
            BuildRefusal::Limits => 3,
            BuildRefusal::Range { .. } => 4,
            BuildRefusal::Useless { .. } => 5,
            BuildRefusal::States => 6,
            BuildRefusal::Conflict { .. } => 7,
        }
    }
}

// The number, and the told values behind spaces.
impl fmt::Display for BuildRefusal {
    ghost use Rattle.std.specs.Prelude.{Some};
    ghost use Rattle.grammar.specs.Texts.{told_text};
    ghost use Rattle.tables.specs.BuildRefusals.{told};

    ghost output = { λ r. Some (told_text (told r)) };

    fn fmt<W: fmt::Write>(&self, f: &mut fmt::Formatter<W>) -> fmt::Result {
        let number = self.number();
        match self {
            BuildRefusal::Range { rule } => write!(f, "{number} {rule}"),
            BuildRefusal::Useless { nonterminal } => write!(f, "{number} {nonterminal}"),
            BuildRefusal::Conflict {
                state,
                word,
                first,
                second,
            } => write!(f, "{number} {state} {word} {first} {second}"),
            _ => write!(f, "{number}"),
        }
    }
}

impl Error for BuildRefusal {}
