use sheet::RuleSheet;
use std::fmt;
use written::WrittenSheet;

// A code as a sheet writes it, or `end` for the end mark, which no sheet writes.
#[derive(Clone, Copy)]
pub(crate) struct Spelled<'a> {
    pub(crate) sheet: &'a WrittenSheet<'a>,
    pub(crate) code: u16,
}

// The code of the start.
pub(crate) fn start_of(sheet: &WrittenSheet<'_>) -> u16 {
    sheet.terminals().saturating_add(1)
}

impl fmt::Display for Spelled<'_> {
    fn fmt<W: fmt::Write>(&self, f: &mut fmt::Formatter<W>) -> fmt::Result {
        let bytes = self.sheet.spelling(self.code).unwrap_or(b"end");
        // A spelling has no other bytes than 33 to 126.
        let spelling = str::from_utf8(bytes).unwrap_or("");
        if (1..=self.sheet.terminals()).contains(&self.code) {
            write!(f, "\"{spelling}\"")
        } else {
            write!(f, "{spelling}")
        }
    }
}
