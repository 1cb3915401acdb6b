// The words of a written sheet.
use super::lexer::Token;
use super::tokens::Tokens;

// The words of a text, in text order.
#[derive(Clone, Copy)]
pub struct Words<'a> {
    tokens: Tokens<'a>,
}

impl<'a> Words<'a> {
    ghost use Rattle.std.specs.Prelude.{List};
    ghost use Rattle.written.specs.TokenWalks.{Ahead};
    ghost use Rattle.written.specs.Tokens.{Laid, Placed};

    pub(crate) fn new(text: &'a [u8]) -> Words<'a>
        ensures { (ts : List Placed) → Laid 0 ts text.now → Ahead result.tokens ts }
    {
        Words {
            tokens: Tokens::new(text),
        }
    }
}

impl<'a> Iterator for Words<'a> {
    ghost use Rattle.std.specs.Iterator.{at_most};
    ghost use Rattle.written.specs.TokenWalks.{bytes_left};
    ghost use Rattle.written.specs.Walks.{GivesWord};

    type Item = &'a [u8];

    ghost next_gives = { GivesWord };

    ghost remaining = { λ s. at_most (bytes_left s.tokens) };

    fn next(&mut self) -> Option<&'a [u8]> {
        self.tokens.find_map(|token| match token {
            Token::Word(word) => Some(word.bytes),
            _ => None,
        })
    }
}
