// The tokens of a written sheet, one after the other.
ghost use Rattle.std.specs.Prelude.{◌≤◌, length};

use super::lexer::{Token, next_token};

// The tokens of a text from a place on.
#[derive(Clone, Copy)]
pub struct Tokens<'a> {
    text: &'a [u8],
    at: usize,
    ghost within: { at ≤ length text.now },
}

impl<'a> Tokens<'a> {
    ghost use Rattle.std.specs.Prelude.{List};
    ghost use Rattle.written.specs.TokenWalks.{Ahead};
    ghost use Rattle.written.specs.Tokens.{Laid, Placed};

    // All tokens of a text.
    pub(crate) fn new(text: &'a [u8]) -> Tokens<'a>
        ensures { (ts : List Placed) → Laid 0 ts text.now → Ahead result ts }
    {
        Tokens { text, at: 0 }
    }
}

impl<'a> Iterator for Tokens<'a> {
    ghost use Rattle.std.specs.Iterator.{at_most};
    ghost use Rattle.written.specs.TokenWalks.{GivesToken, bytes_left};

    type Item = Token<'a>;

    ghost next_gives = { GivesToken };

    ghost remaining = { λ s. at_most (bytes_left s) };

    fn next(&mut self) -> Option<Token<'a>> {
        let found = next_token(self.text, self.at)?;
        self.at = found.after;
        Some(found.token)
    }
}
