use super::spelled::{Spelled, start_of};
use sheet::RuleSheet;
use std::fmt;
use written::WrittenSheet;

// A rule with a dot in its right side. Rule 0, which no sheet tells, has no name on its left.
#[derive(Clone, Copy)]
pub(crate) struct Item<'a> {
    pub(crate) sheet: &'a WrittenSheet<'a>,
    pub(crate) rule: u16,
    pub(crate) dot: u16,
}

// How many codes a rule has on its right.
pub(crate) fn length_of(sheet: &WrittenSheet<'_>, rule: u16) -> u16 {
    let Some(length) = sheet.length(rule) else {
        // Rule 0, which no sheet tells, has the start and the end mark.
        return 2;
    };
    length
}

impl Item<'_> {
    // The code at a place of the right side.
    fn code(&self, place: u16) -> Option<u16> {
        match (self.rule, place) {
            (0, 0) => Some(start_of(self.sheet)),
            (0, 1) => Some(0),
            (rule, place) => self.sheet.code(rule, place),
        }
    }

    // The code behind the dot.
    pub(crate) fn next(&self) -> Option<u16> {
        self.code(self.dot)
    }
}

impl fmt::Display for Item<'_> {
    fn fmt<W: fmt::Write>(&self, f: &mut fmt::Formatter<W>) -> fmt::Result {
        let sheet = self.sheet;
        if let Some(code) = sheet.left(self.rule) {
            write!(f, "{} ", Spelled { sheet, code })?;
        }
        write!(f, ":")?;
        // By place, as sheets tell codes; the dot may stand behind all codes, at a place that has none.
        for place in 0..=length_of(sheet, self.rule) {
            if place == self.dot {
                write!(f, " .")?;
            }
            if let Some(code) = self.code(place) {
                write!(f, " {}", Spelled { sheet, code })?;
            }
        }
        Ok(())
    }
}
