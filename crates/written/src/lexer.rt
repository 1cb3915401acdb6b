// The tokens of a written sheet, as parts of its text.
ghost use Rattle.std.specs.Prelude.{◌≡◌, ℕ, Bool, ◌+◌, ◌<◌, ◌≤◌, List, length, drop, IfSome};
ghost use Rattle.written.specs.Lexing.{Borrows, Starts};
ghost use Rattle.written.specs.Tokens.{Laid, Placed, blank, letter};
ghost use Rattle.std.specs.List.{prefix_len};

#[derive(Clone, Copy)]
pub enum Mark {
    Colon,
    Bar,
    Semicolon,
}

// A part of a text: its bytes, and the place of the first, from 0.
#[derive(Clone, Copy)]
pub struct Part<'a> {
    pub at: usize,
    pub bytes: &'a [u8],
}

// A token with its part of the text: all of a name, what stands between a word's quotes, or the
// byte of a mark.
#[derive(Clone, Copy)]
pub enum Token<'a> {
    Name(Part<'a>),
    Word(Part<'a>),
    Mark(Part<'a>, Mark),
}

// A token, and the place behind it.
#[derive(Clone, Copy)]
pub struct Found<'a> {
    pub token: Token<'a>,
    pub after: usize,
}

fn is_blank(b: u8) -> bool
    ensures { result ≡ blank b }
{
    matches!(char::from(b), ' ' | '\n')
}

fn is_letter(b: u8) -> bool
    ensures { result ≡ letter b }
{
    matches!(char::from(b), 'a'..='z' | 'A'..='Z')
}

// The first place from `from` on whose byte does not pass.
fn past<F: Fn(u8) -> bool>(text: &[u8], from: usize, passes: F) -> usize
    requires start { from ≤ length text.now }
    requires callable { F.IsAlwaysCallable passes }
    ensures within { (from ≤ result) × (result ≤ length text.now) }
    ensures value { (p : ℕ → Bool) → ((b : ℕ) (r : Bool) → F.post passes b r → r ≡ p b) → result ≡ from + prefix_len p (drop from text.now) }
{
    from + text[from..].iter().take_while(|b| passes(**b)).count()
}

// The first token of the text from `from` on, none at its end; of a text that holds other things, whatever looks like one.
pub(crate) fn next_token<'a>(text: &'a [u8], from: usize) -> Option<Found<'a>>
    requires { from ≤ length text.now }
    ensures starts { (ts : List Placed) → Laid from ts (drop from text.now) → Starts text.now result ts }
    ensures borrows { IfSome result (λ f. Borrows text.now f.token) }
    ensures onward { IfSome result (λ f. (from < f.after) × (f.after ≤ length text.now)) }
{
    let at = past(text, from, is_blank);
    if at >= text.len() {
        return None;
    }
    let byte = Part {
        at,
        bytes: &text[at..at + 1],
    };
    match char::from(text[at]) {
        ':' => Some(Found {
            token: Token::Mark(byte, Mark::Colon),
            after: at + 1,
        }),
        '|' => Some(Found {
            token: Token::Mark(byte, Mark::Bar),
            after: at + 1,
        }),
        ';' => Some(Found {
            token: Token::Mark(byte, Mark::Semicolon),
            after: at + 1,
        }),
        '"' => {
            let end = past(text, at + 1, |b| b != b'"');
            if end >= text.len() {
                return None;
            }
            Some(Found {
                token: Token::Word(Part {
                    at: at + 1,
                    bytes: &text[at + 1..end],
                }),
                after: end + 1,
            })
        }
        'a'..='z' | 'A'..='Z' => {
            let end = past(text, at + 1, is_letter);
            Some(Found {
                token: Token::Name(Part {
                    at,
                    bytes: &text[at..end],
                }),
                after: end,
            })
        }
        _ => None,
    }
}
