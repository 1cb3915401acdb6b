// A sheet that is written as text.
ghost use Rattle.sheet.specs.Readings.{rule_told};
ghost use Rattle.written.specs.WrittenRefusals.{form_told};
ghost use Rattle.std.specs.Prelude.{◌≡◌, MatchOption};
ghost use Rattle.written.specs.NamesOf.{spelling_told, word_code_told};
ghost use Rattle.std.specs.Option.{option_map};
ghost use Rattle.sheet.specs.ShortRules.{rule_of};
ghost use Rattle.written.specs.Spelled.{bytes_of};
ghost use Rattle.written.specs.WrittenSheets.{Headed, OneOpening, Opened, Reads, Refused, contents, empty, written_grammar};

use super::draft::{Rules, read_rules};
use super::form::misplaced;
use super::headless::first_headless;
use super::names::Names;
use super::written_refusal::WrittenRefusal;
use bounded::BoundedList;
use sheet::{RuleSheet, ShortRule};

// What a text says: the spellings of its words and heads, as parts of the text, and its rules.
#[derive(Clone, Copy)]
pub struct WrittenSheet<'a> {
    names: Names<'a>,
    rules: Rules,
}

// The first byte that cannot stand where it does, or else the place of the first name that heads nothing.
fn form_fault(text: &[u8]) -> Option<usize>
    ensures { MatchOption result (Headed text.now) (λ place. Refused text.now (form_told place)) }
{
    misplaced(text).or_else(|| first_headless(text))
}

impl<'a> WrittenSheet<'a> {
    // A sheet with counts 0 and no rule.
    pub fn new() -> WrittenSheet<'a>
        ensures { contents result ≡ empty }
    {
        WrittenSheet {
            names: Names::new(),
            rules: BoundedList::new(ShortRule::new(0)),
        }
    }

    // The sheet that a text says. Its form is looked at first, then its names, then the limits.
    fn read(text: &'a [u8]) -> Result<WrittenSheet<'a>, WrittenRefusal>
        ensures { Reads text.now result }
    {
        if let Some(place) = form_fault(text) {
            return Err(WrittenRefusal::Form { place });
        }
        let names = Names::of(text)?;
        if !names.counts_within() {
            return Err(WrittenRefusal::Limits);
        }
        let rules = read_rules(text, &names)?;
        if rules.is_empty() {
            return Err(WrittenRefusal::Limits);
        }
        Ok(WrittenSheet { names, rules })
    }

    // Opens a text; refused, the sheet has counts 0 and no rule.
    pub fn open(&mut self, text: &'a [u8]) -> Result<(), WrittenRefusal>
        ensures { Opened text.entry.now result (contents self.new) }
    {
        *self = WrittenSheet::new();
        *self = WrittenSheet::read(text)?;
        Ok(())
    }

    // The code of a word, by its spelling without quotes.
    pub fn word_code(&self, spelling: &[u8]) -> Option<u16>
        ensures { result ≡ word_code_told (contents self.now).words spelling.now }
    {
        self.names.word_code(spelling)
    }

    // The spelling of a code: of a word without its quotes, or of a head.
    pub fn spelling(&self, code: u16) -> Option<&'a [u8]>
        ensures { bytes_of result ≡ spelling_told (contents self.now).words (contents self.now).heads code }
    {
        self.names.spelling(code)
    }

    // The rule with a number, from 1.
    #[tactic(auto, using(crate::proofs::RuleNumbers::found_by_number))]
    fn numbered(&self, rule: u16) -> Option<ShortRule>
        ensures { option_map rule_of result ≡ rule_told (written_grammar self.now) rule }
    {
        let at = rule.checked_sub(1)?;
        self.rules.get(usize::from(at))
    }
}

impl<'a> RuleSheet for WrittenSheet<'a> {
    ghost meaning = { written_grammar };

    fn terminals(&self) -> u16 {
        self.names.words()
    }

    fn nonterminals(&self) -> u16 {
        self.names.heads()
    }

    fn rules(&self) -> u16 {
        self.rules.len() as u16
    }

    // One reading each, since each asks the rule that was found for something else.
    fn left(&self, rule: u16) -> Option<u16> {
        self.numbered(rule).map(|found| found.left())
    }

    fn length(&self, rule: u16) -> Option<u16> {
        self.numbered(rule).map(|found| found.length())
    }

    fn code(&self, rule: u16, place: u16) -> Option<u16> {
        let found = self.numbered(rule)?;
        found.code(place)
    }
}

// A theorem: what an opening promises leaves one answer only.
pub fn one_opening() -> u8
    ensures theorem { OneOpening }
    ensures answer { result ≡ 0 }
{
    0
}
