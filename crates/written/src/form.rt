// The form of a written sheet: the first byte that cannot stand where it does.
ghost use Rattle.written.specs.Form.{Misplaced, WellFormed};
ghost use Rattle.written.specs.Stages.{next};
ghost use Rattle.std.specs.Prelude.{◌≡◌, ◌+◌, MatchOption, cond, nat_lt};

// The most letters in a name, and the most bytes in a word.
const LONGEST: u8 = 24;

// How far a text has been read: a state that the next byte leads on from, and no switch between steps. The numbers count the letters or bytes of the token that is being read.
#[derive(Clone, Copy)]
enum Stage {
    // Between statements.
    Between,
    // In the name at the head of a statement.
    Head(u8),
    // Behind that name, before the colon.
    Headed,
    // Behind the colon, between tokens.
    Body,
    // In a name behind the colon.
    Name(u8),
    // In a word.
    Word(u8),
}

// One more letter or byte of a token, if it is not the 25th.
fn longer(count: u8) -> Option<u8>
    ensures { result ≡ cond (nat_lt count 24) (Some (count + 1)) None }
{
    (count < LONGEST).then(|| count + 1)
}

// The stage behind one more byte, where that byte can stand.
fn step(stage: Stage, byte: u8) -> Option<Stage>
    ensures { result ≡ next stage byte }
{
    match (stage, char::from(byte)) {
        (Stage::Between, ' ' | '\n') => Some(Stage::Between),
        (Stage::Between, 'a'..='z' | 'A'..='Z') => Some(Stage::Head(1)),
        (Stage::Head(letters), 'a'..='z' | 'A'..='Z') => Some(Stage::Head(longer(letters)?)),
        (Stage::Head(_) | Stage::Headed, ' ' | '\n') => Some(Stage::Headed),
        (Stage::Head(_) | Stage::Headed, ':') => Some(Stage::Body),
        (Stage::Body, 'a'..='z' | 'A'..='Z') => Some(Stage::Name(1)),
        (Stage::Name(letters), 'a'..='z' | 'A'..='Z') => Some(Stage::Name(longer(letters)?)),
        (Stage::Body | Stage::Name(_), ' ' | '\n' | '|') => Some(Stage::Body),
        (Stage::Body | Stage::Name(_), '"') => Some(Stage::Word(0)),
        (Stage::Body | Stage::Name(_), ';') => Some(Stage::Between),
        (Stage::Word(bytes), '"') if bytes > 0 => Some(Stage::Body),
        (Stage::Word(_), '"') => None,
        (Stage::Word(bytes), '!'..='~') => Some(Stage::Word(longer(bytes)?)),
        _ => None,
    }
}

// The place of the first byte that cannot stand where it does, the text's length where it ends early, or none where it is well formed.
pub(crate) fn misplaced(text: &[u8]) -> Option<usize>
    ensures { MatchOption result (WellFormed text.now) (λ p. Misplaced text.now p) }
{
    let read = text.iter().enumerate().try_fold(
        Stage::Between,
        |stage, (at, byte)| step(stage, *byte).ok_or(at),
    );
    match read {
        Ok(Stage::Between) => None,
        Ok(_) => Some(text.len()),
        Err(at) => Some(at),
    }
}
