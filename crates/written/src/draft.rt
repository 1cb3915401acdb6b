// The rules of a written sheet, read from its tokens.
ghost use Rattle.std.specs.Prelude.{◌≡◌, ℕ, List};
ghost use Rattle.written.specs.Drafts.{Extends, Read, Steps, blank_draft, divided, drafted, closed, extended, named};
ghost use Rattle.written.specs.Lexing.{placed_of};
ghost use Rattle.written.specs.Spelled.{spelled};
ghost use Rattle.written.specs.Tokens.{Laid, Placed, tokens};

use super::lexer::{Mark, Token};
use super::names::Names;
use super::tokens::Tokens;
use super::written_refusal::WrittenRefusal;
use bounded::{BoundedList, Full};
use sheet::ShortRule;

// Up to 96 rules.
pub type Rules = BoundedList<ShortRule, 96>;

// The rules read so far, and the one that is being read, none between statements.
#[derive(Clone, Copy)]
struct Draft {
    rule: Option<ShortRule>,
    rules: Rules,
}

impl Draft {
    // No rule yet.
    fn new() -> Draft
        ensures { drafted result ≡ blank_draft }
    {
        Draft {
            rule: None,
            rules: BoundedList::new(ShortRule::new(0)),
        }
    }

    // One more code on the right of the rule that is being read.
    fn extend(&mut self, code: u16) -> Result<(), Full>
        ensures { Extends result (drafted self.new) (extended (drafted self.old) code) }
    {
        if let Some(rule) = &mut self.rule {
            rule.push(code)?;
        }
        Ok(())
    }

    // A name heads a statement, or stands on a right side.
    fn name(&mut self, code: u16) -> Result<(), Full>
        ensures { Extends result (drafted self.new) (named (drafted self.old) code) }
    {
        if self.rule.is_some() {
            return self.extend(code);
        }
        self.rule = Some(ShortRule::new(code));
        Ok(())
    }

    // The rule that is being read ends, and another with its left side begins. `close` differs in what begins behind: nothing.
    fn divide(&mut self) -> Result<(), Full>
        ensures { Extends result (drafted self.new) (divided (drafted self.old)) }
    {
        if let Some(rule) = self.rule {
            self.rules.push(rule)?;
            self.rule = Some(ShortRule::new(rule.left()));
        }
        Ok(())
    }

    // The rule that is being read ends, and with it the statement.
    fn close(&mut self) -> Result<(), Full>
        ensures { Extends result (drafted self.new) (closed (drafted self.old)) }
    {
        if let Some(rule) = self.rule {
            self.rules.push(rule)?;
            self.rule = None;
        }
        Ok(())
    }

    // Takes a token in. Refused where it is a ninth code, ends a 97th rule or has no code.
    fn take(&mut self, names: &Names<'_>, token: Token<'_>) -> Result<(), WrittenRefusal>
        ensures { Steps result (spelled names.now.words) (spelled names.now.heads) (drafted self.old) (placed_of token.entry).token (drafted self.new) }
    {
        let taken = match token {
            Token::Name(name) => {
                let code = names
                    .name_code(name.bytes)
                    .ok_or(WrittenRefusal::Form { place: name.at })?;
                self.name(code)
            }
            Token::Word(word) => {
                let code = names
                    .word_code(word.bytes)
                    .ok_or(WrittenRefusal::Form { place: word.at })?;
                self.extend(code)
            }
            Token::Mark(_, Mark::Colon) => Ok(()),
            Token::Mark(_, Mark::Bar) => self.divide(),
            Token::Mark(_, Mark::Semicolon) => self.close(),
        };
        taken?;
        Ok(())
    }
}

// The rules of a text, whose names and words have these codes.
pub(crate) fn read_rules(text: &[u8], names: &Names<'_>) -> Result<Rules, WrittenRefusal>
    ensures { (ts : List Placed) → Laid 0 ts text.now → Read result (spelled names.now.words) (spelled names.now.heads) (tokens ts) }
{
    let mut draft = Draft::new();
    for token in Tokens::new(text) {
        draft.take(names, token)?;
    }
    Ok(draft.rules)
}
