ghost use Rattle.std.specs.Prelude.{◌≡◌, ◌+◌, ◌<◌, ◌≤◌, [], length, Decides, IfErr, MatchOption, None, OnErr, OnOk, Some};
ghost use Rattle.grammar.specs.Grammar.{AllCodes};
ghost use Rattle.sheet.specs.AddRefusals.{told};
ghost use Rattle.sheet.specs.Readings.{rule_told};
ghost use Rattle.sheet.specs.ShortRules.{rule_of};
ghost use Rattle.sheet.specs.Supplements.{Added, InRange, NotAdded, own_rules, supplemented};
ghost use Rattle.sheet.specs.Supplements.{NeverCut, Uncut};

use super::add_refusal::AddRefusal;
use super::rule_sheet::RuleSheet;
use super::short_rule::ShortRule;
use bounded::BoundedList;

// A sheet made of any other, with up to 16 rules of its own behind those.
#[derive(Drop)]
pub struct Supplement<S> {
    sheet: S,
    own: BoundedList<ShortRule, 16>,
}

impl<S: RuleSheet> Supplement<S> {
    // The sheet alone, with no rule added yet.
    pub fn new(sheet: S) -> Supplement<S>
        ensures means { supplemented S.RuleSheet.meaning result ≡ S.RuleSheet.meaning sheet }
        ensures none { own_rules result ≡ [] }
        ensures uncut { Uncut S.RuleSheet.meaning result }
    {
        Supplement {
            sheet,
            own: BoundedList::new(ShortRule::new(0)),
        }
    }

    // How many rules of its own there are.
    pub fn own_rules(&self) -> u8
        ensures { result ≡ length (own_rules self.now) }
    {
        self.own.len() as u8
    }

    // Adds a rule behind the others. Limits are tried first, then the range; a refusal changes nothing.
    pub fn add(&mut self, left: u16, codes: &[u16]) -> Result<(), AddRefusal>
        ensures added { OnOk result (Added S.RuleSheet.meaning self.old left codes.now self.new) }
        ensures refused { IfErr result (λ e. NotAdded (supplemented S.RuleSheet.meaning self.old) (length (own_rules self.old)) left codes.now (told e)) }
        ensures unchanged { OnErr result (self.new ≡ self.old) }
        ensures uncut { Uncut S.RuleSheet.meaning self.old → Uncut S.RuleSheet.meaning self.new }
    {
        let rules = self.rules();
        if rules >= 96 || self.own.is_full() {
            return Err(AddRefusal::Limits);
        }
        let rule = ShortRule::with_codes(left, codes)?;
        if !in_range(self, left, codes) {
            return Err(AddRefusal::Range { rule: rules + 1 });
        }
        self.own.push(rule)?;
        Ok(())
    }

    // The rule with this number, if it is one of its own.
    fn own_rule(&self, rule: u16) -> Option<ShortRule>
        ensures { MatchOption result (rule_told (supplemented S.RuleSheet.meaning self.now) rule ≡ rule_told (S.RuleSheet.meaning self.now.sheet) rule) (λ own. rule_told (supplemented S.RuleSheet.meaning self.now) rule ≡ Some (rule_of own)) }
    {
        if rule > 96 {
            return None;
        }
        let behind = rule.checked_sub(self.sheet.rules())?;
        self.own.get(usize::from(behind.checked_sub(1)?))
    }
}

// Whether the left side is a nonterminal of the sheet, and each code a terminal or a nonterminal.
fn in_range<S: RuleSheet>(sheet: &S, left: u16, codes: &[u16]) -> bool
    ensures { Decides result (InRange (S.RuleSheet.meaning sheet.now) left codes.now) }
{
    left > sheet.terminals() && are_codes(sheet, &[left]) && are_codes(sheet, codes)
}

// Whether each code is a terminal or a nonterminal of the sheet.
#[tactic(auto, using(crate::proofs::Ranges::codes_from_within, crate::proofs::Ranges::within_from_codes))]
fn are_codes<S: RuleSheet>(sheet: &S, codes: &[u16]) -> bool
    ensures { Decides result (AllCodes (S.RuleSheet.meaning sheet.now) codes.now) }
{
    let last = u32::from(sheet.terminals()) + u32::from(sheet.nonterminals());
    codes
        .iter()
        .all(|&code| code >= 1 && u32::from(code) <= last)
}

impl<S: RuleSheet> RuleSheet for Supplement<S> {
    ghost meaning = { supplemented S.RuleSheet.meaning };

    fn terminals(&self) -> u16 {
        self.sheet.terminals()
    }

    fn nonterminals(&self) -> u16 {
        self.sheet.nonterminals()
    }

    fn rules(&self) -> u16 {
        let below = self.sheet.rules();
        below + (self.own.len() as u16).min(96u16.saturating_sub(below))
    }

    // One reading each, since each asks the rule, or the sheet below, for something else.
    fn left(&self, rule: u16) -> Option<u16> {
        match self.own_rule(rule) {
            Some(own) => Some(own.left()),
            None => self.sheet.left(rule),
        }
    }

    fn length(&self, rule: u16) -> Option<u16> {
        match self.own_rule(rule) {
            Some(own) => Some(own.length()),
            None => self.sheet.length(rule),
        }
    }

    fn code(&self, rule: u16, place: u16) -> Option<u16> {
        match self.own_rule(rule) {
            Some(own) => own.code(place),
            None => self.sheet.code(rule, place),
        }
    }
}

// A theorem: of what `new` and then `add` made nothing is cut off.
pub fn never_cut<S: RuleSheet>() -> u8
    ensures law { NeverCut S.RuleSheet.meaning }
    ensures answer { result ≡ 0 }
{
    0
}
