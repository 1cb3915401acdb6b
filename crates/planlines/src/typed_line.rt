// What a line says: a designer, and words by their codes.
ghost use Rattle.planlines.specs.TypedLines.{LineRead, code_told, designer_told, first_designer, spelled, tokens_of};
ghost use Rattle.std.specs.Prelude.{◌≡◌, drop, map, IfOk};

use std::alloc::{AllocError, Global};
use written::WrittenSheet;

// No designer has this number.
const NOBODY: u8 = 9;

// No word has this code.
const UNKNOWN: u16 = 0;

// The designer that a line names, or else `NOBODY`, and the codes of its words.
#[derive(Drop)]
pub(crate) struct TypedLine {
    pub(crate) designer: u8,
    pub(crate) words: Vec<u16>,
}

// The designer whose digit a token is.
fn designer_of(token: &[u8]) -> u8
    ensures { result ≡ designer_told token.now }
{
    match token {
        [digit @ b'0'..=b'9'] => digit - b'0',
        _ => NOBODY,
    }
}

// What stands between the spaces of a line.
fn tokens(alloc: Global, line: &[u8]) -> Result<Vec<&[u8]>, AllocError>
    ensures { IfOk result (λ v. spelled v.items ≡ tokens_of line.now) }
{
    line.split(|b| *b == b' ')
        .filter(|token| !token.is_empty())
        .collect(alloc)
}

// The designer of the first token.
fn first_designer(tokens: &[&[u8]]) -> u8
    ensures { result ≡ first_designer (spelled tokens.now) }
{
    match tokens {
        [] => NOBODY,
        [first, ..] => designer_of(first),
    }
}

// The codes of the words behind the first token, `UNKNOWN` for a spelling that is no word's.
fn codes(alloc: Global, sheet: &WrittenSheet<'_>, tokens: &[&[u8]]) -> Result<Vec<u16>, AllocError>
    ensures { IfOk result (λ v. v.items ≡ map (λ word. code_told sheet.now word.now) (drop 1 tokens.now)) }
{
    tokens
        .iter()
        .skip(1)
        .map(|word| sheet.word_code(word).unwrap_or(UNKNOWN))
        .collect(alloc)
}

// The designer of a line's first token, and the codes of the others.
#[tactic(auto, using(crate::proofs::Spellings::codes_spelled))]
pub(crate) fn read_line(
    alloc: Global,
    sheet: &WrittenSheet<'_>,
    line: &[u8],
) -> Result<TypedLine, AllocError>
    ensures { IfOk result (LineRead sheet.now line.now) }
{
    let tokens = tokens(alloc, line)?;
    let designer = first_designer(&tokens);
    let words = codes(alloc, sheet, &tokens)?;
    Ok(TypedLine { designer, words })
}
