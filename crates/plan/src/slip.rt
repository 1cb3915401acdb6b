// Slips: made by judging alone, and spent by booking or withdrawing alone.
ghost use Rattle.plan.specs.Slips.{handed};
ghost use Rattle.std.specs.Prelude.{◌≡◌};

use line::TurnRefusal;
use std::marker::Model;

// A judged line's designer, and how many words and derivation steps the line has. The type is no
// Drop, so a slip cannot be let go.
pub struct Slip {
    designer: u8,
    words: u16,
    steps: u16,
}

// Clauses see all that a slip tells, and nothing is left out.
impl Model for Slip {
    ghost use Rattle.plan.specs.Turns.{SlipModel};

    ghost Value = { SlipModel };

    ghost view = { λ s. record { designer = s.designer; words = s.words; steps = s.steps } };

    ghost inverse = { λ s. record { designer = s.designer; words = s.words; steps = s.steps } };
}

impl Slip {
    // The slip of a line just judged.
    pub(crate) fn issue(designer: u8, words: u16, steps: u16) -> Slip
        ensures { result ≡ record { designer = designer; words = words; steps = steps } }
    {
        Slip {
            designer,
            words,
            steps,
        }
    }

    // The end of a slip.
    pub(crate) fn spend(self) {
        let Slip {
            designer: _,
            words: _,
            steps: _,
        } = self;
    }

    // The end of a slip that a call took: the call done, it is spent; refused, it is handed back.
    pub(crate) fn settled<T>(self, answer: Result<T, TurnRefusal>) -> Result<T, (TurnRefusal, Slip)>
        ensures { result ≡ handed self answer }
    {
        // Both arms take the slip, which closures for `map` and `map_err` could not share.
        match answer {
            Ok(done) => {
                self.spend();
                Ok(done)
            }
            Err(refusal) => Err((refusal, self)),
        }
    }

    // Whose line was judged.
    pub fn designer(&self) -> u8
        ensures { result ≡ self.now.designer }
    {
        self.designer
    }

    // How many words the line has.
    pub fn words(&self) -> u16
        ensures { result ≡ self.now.words }
    {
        self.words
    }

    // How many derivation steps the line has.
    pub fn steps(&self) -> u16
        ensures { result ≡ self.now.steps }
    {
        self.steps
    }
}
