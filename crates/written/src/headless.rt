// Names that head nothing.
ghost use Rattle.std.specs.Prelude.{◌≡◌, List};
ghost use Rattle.written.specs.Statements.{member};
ghost use Rattle.written.specs.Tokens.{Laid, Placed, tokens};
ghost use Rattle.written.specs.Walks.{first_headless, heads_in};

use super::heads::Heads;
use super::lexer::Token;
use super::tokens::Tokens;

// Whether some statement has the name for its head.
fn is_head(text: &[u8], name: &[u8]) -> bool
    ensures { (ts : List Placed) → Laid 0 ts text.now → result ≡ member name.now (heads_in (tokens ts)) }
{
    Heads::new(text).any(|head| name == head)
}

// The place of the first name that heads nothing.
pub(crate) fn first_headless(text: &[u8]) -> Option<usize>
    ensures { (ts : List Placed) → Laid 0 ts text.now → result ≡ first_headless (heads_in (tokens ts)) ts }
{
    Tokens::new(text).find_map(|token| match token {
        Token::Name(name) if !is_head(text, name.bytes) => Some(name.at),
        _ => None,
    })
}
