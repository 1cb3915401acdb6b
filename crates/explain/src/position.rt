ghost use Rattle.std.specs.Prelude.{◌≡◌, count_by, length, reverse, take_while};
ghost use Rattle.explain.specs.Bytes.{is_newline, is_within_line};

use std::fmt;

// Where a byte of a text stands; lines and columns are counted from 1.
#[derive(Clone, Copy, PartialEq, Eq, Debug)]
pub struct Position {
    pub line: usize,
    pub column: usize,
}

fn newlines(before: &[u8]) -> usize
    ensures { result ≡ count_by is_newline before.now }
{
    before.iter().filter(|b| **b == b'\n').count()
}

fn within_line(before: &[u8]) -> usize
    ensures { result ≡ length (take_while is_within_line (reverse before.now)) }
{
    before.iter().rev().take_while(|b| **b != b'\n').count()
}

impl Position {
    ghost use Rattle.explain.specs.Positions.{position_of};

    // The position of a place, which is counted from 0. Behind the text all places are at its end.
    pub fn of(text: &[u8], place: usize) -> Position
        ensures { result ≡ position_of text.now place }
    {
        let before = text.get(..place).unwrap_or(text);
        Position {
            line: newlines(before) + 1,
            column: within_line(before) + 1,
        }
    }
}

impl fmt::Display for Position {
    ghost use Rattle.std.specs.Prelude.{Some};
    ghost use Rattle.explain.specs.Positions.{position_text};

    ghost output = { λ p. Some (position_text p) };

    fn fmt<W: fmt::Write>(&self, f: &mut fmt::Formatter<W>) -> fmt::Result {
        let line = self.line;
        let column = self.column;
        write!(f, "line {line}, column {column}")
    }
}
