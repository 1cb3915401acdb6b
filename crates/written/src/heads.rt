// The heads of a written sheet: the names with which its statements begin.
use super::lexer::{Mark, Token};
use super::tokens::Tokens;

// The heads of a text, in text order.
#[derive(Clone, Copy)]
pub struct Heads<'a> {
    tokens: Tokens<'a>,
    // Whether a statement may begin. A flag, as a state of the walk and not a kind of walk.
    between: bool,
}

impl<'a> Heads<'a> {
    ghost use Rattle.std.specs.Prelude.{◌≡◌, true, List};
    ghost use Rattle.written.specs.TokenWalks.{Ahead};
    ghost use Rattle.written.specs.Tokens.{Laid, Placed};

    pub(crate) fn new(text: &'a [u8]) -> Heads<'a>
        ensures tokens { (ts : List Placed) → Laid 0 ts text.now → Ahead result.tokens ts }
        ensures between { result.between ≡ true }
    {
        Heads {
            tokens: Tokens::new(text),
            between: true,
        }
    }
}

impl<'a> Iterator for Heads<'a> {
    ghost use Rattle.std.specs.Iterator.{at_most};
    ghost use Rattle.written.specs.TokenWalks.{bytes_left};
    ghost use Rattle.written.specs.Walks.{GivesHead};

    type Item = &'a [u8];

    ghost next_gives = { GivesHead };

    ghost remaining = { λ s. at_most (bytes_left s.tokens) };

    fn next(&mut self) -> Option<&'a [u8]> {
        // By a loop: of what the closure of a `find_map` changes, as here `between`, a proof knows nothing afterwards.
        while let Some(token) = self.tokens.next() {
            match token {
                Token::Name(head) if self.between => {
                    self.between = false;
                    return Some(head.bytes);
                }
                Token::Mark(_, Mark::Semicolon) => self.between = true,
                _ => {}
            }
        }
        None
    }
}
