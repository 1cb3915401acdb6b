use super::position::Position;
use std::fmt;
use written::WrittenRefusal;

// Why a written sheet does not open.
#[derive(Clone, Copy, PartialEq, Eq, Debug)]
pub enum Explanation {
    // the text ends within a statement
    Unfinished,
    // a byte that cannot stand there, or the first of a name that heads nothing
    Misplaced(Position),
    // a count or the length of a right side is outside its limits
    Limits,
}

impl Explanation {
    ghost use Rattle.explain.specs.Explanations.{Explains};
    ghost use Rattle.written.specs.WrittenRefusals.{told};

    // How the refusal of a text is explained.
    pub fn of(text: &[u8], refusal: WrittenRefusal) -> Explanation
        ensures { Explains text.now (told refusal) result }
    {
        match refusal {
            WrittenRefusal::Form { place } if place < text.len() => {
                Explanation::Misplaced(Position::of(text, place))
            }
            WrittenRefusal::Form { .. } => Explanation::Unfinished,
            WrittenRefusal::Limits => Explanation::Limits,
        }
    }
}

impl fmt::Display for Explanation {
    ghost use Rattle.std.specs.Prelude.{Some};
    ghost use Rattle.explain.specs.Explanations.{explanation_text};

    ghost output = { λ e. Some (explanation_text e) };

    fn fmt<W: fmt::Write>(&self, f: &mut fmt::Formatter<W>) -> fmt::Result {
        match self {
            Explanation::Unfinished => {
                write!(f, "the sheet ends before its last statement does")
            }
            Explanation::Misplaced(position) => write!(
                f,
                "{position}: this cannot stand here, or it is a name that no statement begins with"
            ),
            Explanation::Limits => write!(
                f,
                "a sheet has 1 to 63 words, 1 to 24 phrase kinds and 1 to 96 rules, and at most 8 codes on a right side"
            ),
        }
    }
}
