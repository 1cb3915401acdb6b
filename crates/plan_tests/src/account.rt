// What a plan over one of three sheets should answer, kept without tables.
use super::language::{Language, Noted};
use bounded::BoundedList;
use line::TurnRefusal;

// The most numbers that the page of a plan takes here.
pub(crate) const ROOM: usize = 1200;

#[derive(Clone, Copy)]
struct AccountLine {
    words: BoundedList<u16, 256>,
    rules: BoundedList<u16, 768>,
    judged: bool,
}

impl AccountLine {
    fn new() -> AccountLine {
        AccountLine {
            words: BoundedList::new(0),
            rules: BoundedList::new(0),
            judged: false,
        }
    }

    // The rules noted with these behind them.
    fn noting(&self, noted: Noted) -> Result<BoundedList<u16, 768>, TurnRefusal> {
        let mut rules = self.rules;
        rules
            .extend_from_slice(noted.first)
            .map_err(|_| TurnRefusal::Reductions)?;
        for _ in 0..noted.times {
            rules.push(noted.rule).map_err(|_| TurnRefusal::Reductions)?;
        }
        rules
            .extend_from_slice(noted.last)
            .map_err(|_| TurnRefusal::Reductions)?;
        Ok(rules)
    }

    // The rules noted once the line goes on with a word, or ends.
    fn rules_at(
        &self,
        language: Language,
        ahead: u16,
    ) -> Result<BoundedList<u16, 768>, TurnRefusal> {
        let noted = language
            .noted(self.words.as_slice(), ahead)
            .ok_or(TurnRefusal::NoAction)?;
        self.noting(noted)
    }
}

#[derive(Drop)]
pub(crate) struct Account {
    language: Language,
    lines: [AccountLine; 8],
    booked: u64,
    numbers: BoundedList<u16, ROOM>,
}

impl Account {
    pub(crate) fn new(language: Language) -> Account {
        Account {
            language,
            lines: [AccountLine::new(); 8],
            booked: 0,
            numbers: BoundedList::new(0),
        }
    }

    // The numbers of the entries booked.
    pub(crate) fn numbers(&self) -> &[u16] {
        self.numbers.as_slice()
    }

    // How many numbers are free.
    pub(crate) fn free(&self) -> usize {
        ROOM.saturating_sub(self.numbers.len())
    }

    // A designer's line, if it is judged or open as wanted.
    fn line(&mut self, designer: u8, judged: bool) -> Result<&mut AccountLine, TurnRefusal> {
        let line = self
            .lines
            .get_mut(usize::from(designer))
            .ok_or(TurnRefusal::NoDesigner)?;
        if line.judged != judged {
            return Err(TurnRefusal::Status);
        }
        Ok(line)
    }

    pub(crate) fn word(&mut self, designer: u8, word: u16) -> Result<u16, TurnRefusal> {
        let language = self.language;
        let line = self.line(designer, false)?;
        if line.words.is_full() {
            return Err(TurnRefusal::FullLine);
        }
        if word == 0 || word > language.terminals() {
            return Err(TurnRefusal::NoWord);
        }
        let rules = line.rules_at(language, word)?;
        line.words.push(word).map_err(|_| TurnRefusal::FullLine)?;
        let more = rules.len().saturating_sub(line.rules.len());
        line.rules = rules;
        Ok(u16::try_from(more).unwrap_or(u16::MAX))
    }

    // What the slip tells.
    pub(crate) fn judge(&mut self, designer: u8) -> Result<(u8, u16, u16), TurnRefusal> {
        let language = self.language;
        let line = self.line(designer, false)?;
        line.rules = line.rules_at(language, 0)?;
        line.judged = true;
        Ok((designer, line.words.len() as u16, line.rules.len() as u16))
    }

    // The entry of a designer's judged line.
    fn entry(&mut self, designer: u8) -> Result<BoundedList<u16, 1027>, TurnRefusal> {
        let line = *self.line(designer, true)?;
        let mut entry = BoundedList::new(0);
        let head = [
            u16::from(designer),
            line.words.len() as u16,
            line.rules.len() as u16,
        ];
        for part in &[&head[..], line.words.as_slice(), line.rules.as_slice()] {
            entry
                .extend_from_slice(part)
                .map_err(|_| TurnRefusal::FullBook)?;
        }
        Ok(entry)
    }

    pub(crate) fn book(&mut self, designer: u8) -> Result<u64, TurnRefusal> {
        let entry = self.entry(designer)?;
        self.numbers
            .extend_from_slice(entry.as_slice())
            .map_err(|_| TurnRefusal::FullBook)?;
        *self.line(designer, true)? = AccountLine::new();
        self.booked = self.booked.saturating_add(1);
        Ok(self.booked)
    }

    // A judged line withdrawn, or an open one cleared.
    pub(crate) fn freshen(&mut self, designer: u8, judged: bool) -> Result<(), TurnRefusal> {
        *self.line(designer, judged)? = AccountLine::new();
        Ok(())
    }
}
