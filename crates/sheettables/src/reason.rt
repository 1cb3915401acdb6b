use super::item::{Item, length_of};
use super::items::write_items;
use super::spelled::{Spelled, start_of};
use grammar::Action;
use sheet::RuleSheet;
use std::fmt;
use tables::{BuildRefusal, Items, items_of};
use written::WrittenSheet;

// Why a sheet that opens has no tables.
#[derive(Clone, Copy)]
pub(crate) struct Reason<'a> {
    pub(crate) sheet: &'a WrittenSheet<'a>,
    pub(crate) refusal: BuildRefusal,
}

impl<'a> Reason<'a> {
    fn write_useless<W: fmt::Write>(&self, f: &mut fmt::Formatter<W>, code: u16) -> fmt::Result {
        let sheet = self.sheet;
        let start = start_of(sheet);
        write!(f, "{} derives no line of words", Spelled { sheet, code })?;
        // The start is always reached.
        if code == start {
            return writeln!(f, "");
        }
        writeln!(
            f,
            ", or is not reached from {}",
            Spelled { sheet, code: start }
        )
    }

    // The items of a state that ask for an action on a word.
    fn write_readings<W: fmt::Write>(
        &self,
        f: &mut fmt::Formatter<W>,
        items: &Items,
        word: u16,
        action: Action,
    ) -> fmt::Result {
        let sheet = self.sheet;
        if let Action::Reduce(rule) = action {
            let rule = u16::from(rule);
            let dot = length_of(sheet, rule);
            return writeln!(f, "  {}", Item { sheet, rule, dot });
        }
        write_items(f, sheet, |item: Item<'_>| {
            item.next() == Some(word) && items.has(usize::from(item.rule), usize::from(item.dot))
        })
    }

    fn write_conflict<W: fmt::Write>(
        &self,
        f: &mut fmt::Formatter<W>,
        state: u8,
        word: u8,
        first: Action,
        second: Action,
    ) -> fmt::Result {
        let sheet = self.sheet;
        let code = u16::from(word);
        writeln!(
            f,
            "in state {state}, on {} there are two actions, {first} and {second}, by these items:",
            Spelled { sheet, code },
        )?;
        let Some(items) = items_of(sheet, usize::from(state)) else {
            return Ok(());
        };
        self.write_readings(f, &items, code, first)?;
        self.write_readings(f, &items, code, second)
    }
}

impl fmt::Display for Reason<'_> {
    fn fmt<W: fmt::Write>(&self, f: &mut fmt::Formatter<W>) -> fmt::Result {
        match self.refusal {
            BuildRefusal::Range { rule } => {
                writeln!(
                    f,
                    "rule {rule} has a code that is no word or phrase kind of the sheet"
                )
            }
            BuildRefusal::Useless { nonterminal } => self.write_useless(f, nonterminal),
            BuildRefusal::States => writeln!(f, "the sheet needs more than 96 states"),
            BuildRefusal::Conflict {
                state,
                word,
                first,
                second,
            } => self.write_conflict(f, state, word, first, second),
            BuildRefusal::Limits => writeln!(
                f,
                "a count or the length of a right side is outside its limits"
            ),
        }
    }
}
