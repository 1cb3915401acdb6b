ghost use Rattle.std.specs.Prelude.{◌≡◌, ◌<◌, ◌≤◌, ◌↔◌, IfOk, IsOk, OnErr, OnOk, [], length};
ghost use Rattle.std.specs.List.{slice_get};
ghost use Rattle.sheet.specs.ShortRules.{rule_of, with_code};

use bounded::{BoundedList, Full};

// A rule with at most eight codes on its right.
#[derive(Clone, Copy)]
pub struct ShortRule {
    left: u16,
    codes: BoundedList<u16, 8>,
}

impl ShortRule {
    // A rule with nothing on its right.
    pub fn new(left: u16) -> ShortRule
        ensures { rule_of result ≡ record { left = left; right = [] } }
    {
        ShortRule {
            left,
            codes: BoundedList::new(0),
        }
    }

    // A rule with these codes on its right, if they are at most eight.
    pub fn with_codes(left: u16, codes: &[u16]) -> Result<ShortRule, Full>
        ensures short { IsOk result ↔ (length codes.now ≤ 8) }
        ensures rule { IfOk result (λ r. rule_of r ≡ record { left = left; right = codes.now }) }
    {
        let mut rule = ShortRule::new(left);
        rule.codes.extend_from_slice(codes)?;
        Ok(rule)
    }

    // The left side.
    pub fn left(&self) -> u16
        ensures { result ≡ (rule_of self.now).left }
    {
        self.left
    }

    // The number of codes on the right.
    pub fn length(&self) -> u16
        ensures value { result ≡ length (rule_of self.now).right }
        ensures few { result ≤ 8 }
    {
        self.codes.len() as u16
    }

    // The code at a place of the right side, from 0.
    pub fn code(&self, place: u16) -> Option<u16>
        ensures { result ≡ slice_get (rule_of self.now).right place }
    {
        self.codes.get(usize::from(place))
    }

    // One more code at the end, or none where it would be the ninth.
    pub fn push(&mut self, code: u16) -> Result<(), Full>
        ensures room { IsOk result ↔ (length (rule_of self.old).right < 8) }
        ensures pushed { OnOk result (rule_of self.new ≡ with_code (rule_of self.old) code) }
        ensures unchanged { OnErr result (self.new ≡ self.old) }
    {
        self.codes.push(code)
    }
}
