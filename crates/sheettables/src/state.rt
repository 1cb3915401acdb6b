use super::item::Item;
use super::items::write_items;
use super::spelled::Spelled;
use sheet::RuleSheet;
use std::fmt;
use tables::Tables;
use written::WrittenSheet;

// A state of built tables: its items, its cells and its moves by phrase kinds.
#[derive(Clone, Copy)]
pub(crate) struct State<'a> {
    pub(crate) sheet: &'a WrittenSheet<'a>,
    pub(crate) tables: &'a Tables,
    pub(crate) number: usize,
}

impl<'a> State<'a> {
    fn write_cells<W: fmt::Write>(&self, f: &mut fmt::Formatter<W>) -> fmt::Result {
        let sheet = self.sheet;
        // By code here and below, as tables are asked.
        for code in 0..=sheet.terminals() {
            if let Some(action) = self.tables.cell(self.number, usize::from(code)) {
                writeln!(f, "  on {} {action}", Spelled { sheet, code })?;
            }
        }
        Ok(())
    }

    fn write_gotos<W: fmt::Write>(&self, f: &mut fmt::Formatter<W>) -> fmt::Result {
        let sheet = self.sheet;
        let words = sheet.terminals();
        for number in 1..=sheet.nonterminals() {
            let code = words.saturating_add(number);
            if let Some(to) = self.tables.goto(self.number, usize::from(code)) {
                writeln!(f, "  goto {} {to}", Spelled { sheet, code })?;
            }
        }
        Ok(())
    }
}

impl<'a> fmt::Display for State<'a> {
    fn fmt<W: fmt::Write>(&self, f: &mut fmt::Formatter<W>) -> fmt::Result {
        let number = self.number;
        writeln!(f, "state {number}")?;
        write_items(f, self.sheet, |item: Item<'_>| {
            self.tables
                .has_item(number, usize::from(item.rule), usize::from(item.dot))
        })?;
        self.write_cells(f)?;
        self.write_gotos(f)
    }
}
