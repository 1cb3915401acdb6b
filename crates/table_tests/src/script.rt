// Sheets that are made rule by rule, as packed numbers and as text.
use sheet::RuleSheet;
use std::alloc::{AllocError, Global};
use std::test::Fail;

#[derive(Drop)]
pub(crate) struct Script {
    terminals: u16,
    nonterminals: u16,
    starts: Vec<u16>,
    bodies: Vec<u16>,
}

// All that is made here is short.
fn narrow(size: usize) -> u16 {
    u16::try_from(size).unwrap_or(u16::MAX)
}

impl Script {
    pub(crate) fn new(heap: Global, terminals: u16, nonterminals: u16) -> Script {
        Script {
            terminals,
            nonterminals,
            starts: Vec::new(heap),
            bodies: Vec::new(heap),
        }
    }

    pub(crate) fn rule(&mut self, left: u16, codes: &[u16]) -> Result<(), AllocError> {
        self.starts.push(narrow(self.bodies.len()))?;
        self.bodies.push(left)?;
        self.bodies.push(narrow(codes.len()))?;
        self.bodies.extend_from_slice(codes)
    }

    pub(crate) fn numbers(&self, heap: Global) -> Result<Vec<u16>, AllocError> {
        let rules = narrow(self.starts.len());
        let mut numbers = Vec::new(heap);
        numbers.extend_from_slice(&[self.terminals, self.nonterminals, rules])?;
        for start in &self.starts {
            numbers.push(start.wrapping_add(rules).wrapping_add(3))?;
        }
        numbers.extend_from_slice(&self.bodies)?;
        Ok(numbers)
    }
}

fn put_code(text: &mut String, terminals: u16, code: u16) -> Result<(), AllocError> {
    if code <= terminals {
        return write!(text, "\"{code}\" ");
    }
    let letter = char::from(b'a' + ((code - terminals) % 26) as u8);
    write!(text, "{letter} ")
}

fn put_rule<S: RuleSheet>(text: &mut String, sheet: &S, rule: u16) -> Result<(), Fail> {
    let terminals = sheet.terminals();
    put_code(text, terminals, sheet.left(rule).ok_or("no left side")?)?;
    text.push_str(": ")?;
    for place in 0..sheet.length(rule).ok_or("no length")? {
        put_code(text, terminals, sheet.code(rule, place).ok_or("no code")?)?;
    }
    text.push_str("; ")?;
    Ok(())
}

// The sheet as text. It opens to the same numbers where words and left sides come in their order.
pub(crate) fn spelled<S: RuleSheet>(heap: Global, sheet: &S) -> Result<String, Fail> {
    let mut text = String::new(heap);
    for rule in 1..=sheet.rules() {
        put_rule(&mut text, sheet, rule)?;
    }
    Ok(text)
}
