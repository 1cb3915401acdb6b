// The spellings of a written sheet and their codes: words first, then heads, each by first appearance.
ghost use Rattle.std.specs.Prelude.{◌≡◌, Decides, List, [], length};
ghost use Rattle.written.specs.NamesOf.{CountsWithin, NamesIn, name_code_told, spelling_told, word_code_told};
ghost use Rattle.written.specs.Spelled.{bytes_of, spelled};
ghost use Rattle.written.specs.Tokens.{Laid, Placed, tokens};

use super::heads::Heads;
use super::spellings::Spellings;
use super::words::Words;
use bounded::Full;

#[derive(Clone, Copy)]
pub struct Names<'a> {
    words: Spellings<'a>,
    heads: Spellings<'a>,
}

impl<'a> Names<'a> {
    // No word and no head.
    pub(crate) fn new() -> Names<'a>
        ensures words { spelled result.words ≡ [] }
        ensures heads { spelled result.heads ≡ [] }
    {
        Names {
            words: Spellings::new(),
            heads: Spellings::new(),
        }
    }

    // The words and heads of a text; full where there are more than 63 of either.
    pub(crate) fn of(text: &'a [u8]) -> Result<Names<'a>, Full>
        ensures { (ts : List Placed) → Laid 0 ts text.now → NamesIn result (tokens ts) }
    {
        Ok(Names {
            words: Spellings::distinct(Words::new(text))?,
            heads: Spellings::distinct(Heads::new(text))?,
        })
    }

    pub(crate) fn words(&self) -> u16
        ensures { result ≡ length (spelled self.now.words) }
    {
        self.words.len() as u16
    }

    pub(crate) fn heads(&self) -> u16
        ensures { result ≡ length (spelled self.now.heads) }
    {
        self.heads.len() as u16
    }

    // Whether there are enough words and heads, and not too many heads.
    pub(crate) fn counts_within(&self) -> bool
        ensures { Decides result (CountsWithin (length (spelled self.now.words)) (length (spelled self.now.heads))) }
    {
        self.words() >= 1 && (1..=24).contains(&self.heads())
    }

    // The code of a word, by its spelling without quotes.
    pub(crate) fn word_code(&self, word: &[u8]) -> Option<u16>
        ensures { result ≡ word_code_told (spelled self.now.words) word.now }
    {
        self.words.number(word)
    }

    // The code of a name that heads a statement.
    pub(crate) fn name_code(&self, name: &[u8]) -> Option<u16>
        ensures { result ≡ name_code_told (spelled self.now.words) (spelled self.now.heads) name.now }
    {
        let words = self.words();
        self.heads.number(name).map(|number| words + number)
    }

    // The spelling of a code: of a word without its quotes, or of a head.
    pub(crate) fn spelling(&self, code: u16) -> Option<&'a [u8]>
        ensures { bytes_of result ≡ spelling_told (spelled self.now.words) (spelled self.now.heads) code }
    {
        let at = code.checked_sub(1)?;
        match at.checked_sub(self.words()) {
            None => self.words.get(usize::from(at)),
            Some(behind) => self.heads.get(usize::from(behind)),
        }
    }
}
