ghost use Rattle.std.specs.Prelude.{◌≡◌, ℕ, ◌+◌, ◌^◌, ◌<◌, ◌≤◌, drop, length, take, IfSome, None, Ok, Some, MatchOption, MatchResult, slice_index};
ghost use Rattle.grammar.specs.Grammar.{Grammar, nothing};
ghost use Rattle.sheet.specs.PackedRefusals.{off_told, told};
ghost use Rattle.sheet.specs.Packing.{BodyAt, InLayout, LayoutLaws, Lies, OffTold, Refused, ends, packed, stated, unpacked};
ghost use Rattle.sheet.specs.Readings.{rule_told};

use super::packed_refusal::PackedRefusal;
use super::rule_sheet::RuleSheet;

// The packed numbers of the empty sheet.
static NOTHING: [u16; 3] = [0, 0, 0];

// A sheet that is read where it lies packed, in a lent list of numbers. It means what they unpack to.
#[derive(Clone, Copy)]
pub struct PackedSheet<'a> {
    numbers: &'a [u16],
    ghost listed: { 3 + stated numbers.now ≤ length numbers.now },
    ghost lies: { (r : ℕ) → r < stated numbers.now → Lies numbers.now r },
    ghost full: { ends numbers.now (stated numbers.now) ≡ length numbers.now },
}

impl<'a> PackedSheet<'a> {
    // The empty sheet: counts 0 and no rule.
    pub fn new() -> PackedSheet<'a>
        ensures empty { unpacked result.numbers.now ≡ nothing }
    {
        PackedSheet { numbers: &NOTHING }
    }

    // Opens the numbers. A list off its layout is refused, and the sheet is then empty.
    pub fn open(&mut self, numbers: &'a [u16]) -> Result<(), PackedRefusal>
        ensures answer { MatchResult result (λ _. numbers.now ≡ packed (unpacked self.new.numbers.now)) (λ e. OffTold numbers.now (told e) × (unpacked self.new.numbers.now ≡ nothing)) }
        ensures means { (G : Grammar) → numbers.now ≡ packed G → (result ≡ Ok tt) × (unpacked self.new.numbers.now ≡ G) }
    {
        self.numbers = &NOTHING;
        check_layout(numbers)?;
        self.numbers = numbers;
        Ok(())
    }

    // Where the body of a rule begins. An index proves here; `contents(..)?.get(..)` would test again what the type says.
    fn place(&self, rule: u16) -> Option<usize>
        ensures { MatchOption result (rule_told (unpacked self.now.numbers.now) rule ≡ None) (λ at. BodyAt self.now.numbers.now rule at) }
    {
        let before = rule.checked_sub(1)?;
        if before >= self.numbers[2] {
            return None;
        }
        Some(usize::from(self.numbers[3 + usize::from(before)]))
    }

    // The left side and the codes of a rule.
    fn rule(&self, rule: u16) -> Option<(u16, &'a [u16])>
        ensures told { MatchOption result (rule_told (unpacked self.now.numbers.now) rule ≡ None) (λ r. rule_told (unpacked self.now.numbers.now) rule ≡ Some (record { left = r.0; right = r.1.now })) }
        ensures narrow { IfSome result (λ r. length r.1.now < 2 ^ 16) }
    {
        let at = self.place(rule)?;
        let behind = &self.numbers[at + 2..];
        Some((
            self.numbers[at],
            &behind[..usize::from(self.numbers[at + 1])],
        ))
    }
}

// The places of the bodies, if the counts and the contents are there.
fn contents(numbers: &[u16]) -> Option<&[u16]>
    ensures { MatchOption result (length numbers.now < 3 + stated numbers.now) (λ c. (3 + stated numbers.now ≤ length numbers.now) × (c.now ≡ take (stated numbers.now) (drop 3 numbers.now))) }
{
    let rules = usize::from(*numbers.get(2)?);
    numbers.get(3..3 + rules)
}

// Why the numbers are off their layout, if they are.
#[tactic(auto, using(crate::proofs::OffLayout::contents_off))]
fn check_layout(numbers: &[u16]) -> Result<(), PackedRefusal>
    ensures { MatchResult result (λ _. InLayout numbers.now) (λ e. Refused numbers.now (told e)) }
{
    let contents = contents(numbers).ok_or(PackedRefusal::Layout { rule: 0 })?;
    let end = bodies_end(numbers, contents)?;
    if end < numbers.len() {
        return Err(PackedRefusal::Layout {
            rule: contents.len() as u32 + 1,
        });
    }
    Ok(())
}

// Where the last body ends, if each lies where the contents have it, behind the one before.
#[tactic(auto, using(crate::proofs::OffLayout::body_off))]
fn bodies_end(numbers: &[u16], contents: &[u16]) -> Result<usize, PackedRefusal>
    requires listed { 3 + stated numbers.now ≤ length numbers.now }
    requires contents { contents.now ≡ take (stated numbers.now) (drop 3 numbers.now) }
    ensures { MatchResult result
        (λ end. (end < length numbers.now → Refused numbers.now (off_told (stated numbers.now + 1)))
        × (length numbers.now ≤ end → InLayout numbers.now))
        (λ e. Refused numbers.now (told e)) }
{
    let mut at = 3 + contents.len();
    for (rule, place) in contents.iter().enumerate() {
        at = body_end(numbers, usize::from(*place), at).ok_or(PackedRefusal::Layout {
            rule: rule as u32 + 1,
        })?;
    }
    Ok(at)
}

// Where the body that has to begin here ends, if the contents say so and it is all there.
fn body_end(numbers: &[u16], place: usize, at: usize) -> Option<usize>
    requires { at ≤ length numbers.now }
    ensures { MatchOption result (place ≡ at → length numbers.now < at + 2 + slice_index numbers.now (at + 1)) (λ end. (place ≡ at) × (end ≡ at + 2 + slice_index numbers.now (at + 1)) × (end ≤ length numbers.now)) }
{
    if place != at {
        return None;
    }
    let codes = usize::from(*numbers.get(at + 1)?);
    let end = at + 2 + codes;
    (end <= numbers.len()).then_some(end)
}

impl<'a> RuleSheet for PackedSheet<'a> {
    ghost meaning = { λ s. unpacked s.numbers.now };

    fn terminals(&self) -> u16 {
        self.numbers[0]
    }

    fn nonterminals(&self) -> u16 {
        self.numbers[1]
    }

    #[tactic(auto, using(crate::proofs::Bodies::rules_length))]
    fn rules(&self) -> u16 {
        self.numbers[2]
    }

    fn left(&self, rule: u16) -> Option<u16> {
        self.rule(rule).map(|(left, _)| left)
    }

    fn length(&self, rule: u16) -> Option<u16> {
        self.rule(rule).map(|(_, codes)| codes.len() as u16)
    }

    fn code(&self, rule: u16, place: u16) -> Option<u16> {
        let (_, codes) = self.rule(rule)?;
        codes.get(usize::from(place)).copied()
    }
}

// A theorem: what is packed is never off its layout, and both answers are single.
pub fn layout_laws() -> u8
    ensures laws { LayoutLaws }
    ensures answer { result ≡ 0 }
{
    0
}
