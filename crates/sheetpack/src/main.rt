// Packs the written rule sheet on standard input, or says where it is wrong.
// It is printed part by part, with no Display, since spellings are bytes of a text and a sheet is of any kind; so output and sheet go together.
#![tactic(auto)]

use console::read_text;
use sheet::{PackedSheet, RuleSheet, pack};
use std::io::Write;
use std::{env, io};
use written::WrittenSheet;

mod refused;
mod usage;

use refused::print_refused;
use usage::usage;

// The longest packing of a written sheet: 3 counts, 96 places and 96 bodies of 10 numbers.
const LONGEST: usize = 1059;

// One rule: its left side, its length and its codes.
fn print_body<S: RuleSheet>(rt: &HostRuntime, sheet: &S, rule: u16) -> io::Result<()> {
    let (Some(left), Some(length)) = (sheet.left(rule), sheet.length(rule)) else {
        return Ok(());
    };
    print!(rt; "{left} {length}")?;
    for place in 0..length {
        let Some(code) = sheet.code(rule, place) else {
            break;
        };
        print!(rt; " {code}")?;
    }
    println!(rt; "")
}

// The places of the bodies, each behind the one before it.
fn print_contents<S: RuleSheet>(rt: &HostRuntime, sheet: &S) -> io::Result<()> {
    let mut at = 3 + u32::from(sheet.rules());
    for rule in 1..=sheet.rules() {
        let Some(length) = sheet.length(rule) else {
            break;
        };
        if rule > 1 {
            print!(rt; " ")?;
        }
        print!(rt; "{at}")?;
        at = at.saturating_add(2 + u32::from(length));
    }
    println!(rt; "")
}

fn print_packed<S: RuleSheet>(rt: &HostRuntime, sheet: &S) -> io::Result<()> {
    let terminals = sheet.terminals();
    let nonterminals = sheet.nonterminals();
    let rules = sheet.rules();
    println!(rt; "{terminals} words, {nonterminals} phrase kinds, {rules} rules")?;
    println!(rt; "{terminals} {nonterminals} {rules}")?;
    print_contents(rt, sheet)?;
    // A sheet is read by the numbers of its rules.
    for rule in 1..=rules {
        print_body(rt, sheet, rule)?;
    }
    Ok(())
}

// Each code from 1 up, with its spelling.
fn print_spellings(rt: &HostRuntime, sheet: &WrittenSheet<'_>) -> io::Result<()> {
    let spellings = (1..=u16::MAX).map_while(|code| Some((code, sheet.spelling(code)?)));
    for (code, spelling) in spellings {
        print!(rt; "{code} ")?;
        rt.stdout().write_all(spelling)?;
        println!(rt; "")?;
    }
    Ok(())
}

// The packed numbers are opened again, and what is printed is read from them.
fn print_sheet(rt: &HostRuntime, sheet: &WrittenSheet<'_>) -> io::Result<()> {
    let mut numbers = [0; LONGEST];
    let mut packed = PackedSheet::new();
    match pack(sheet, &mut numbers) {
        Some(size) if size <= LONGEST && packed.open(&numbers[..size]).is_ok() => {
            print_packed(rt, &packed)?;
            print_spellings(rt, sheet)
        }
        _ => println!(rt; "the packing does not open"),
    }
}

fn main(rt: HostRuntime) -> io::Result<()> {
    if env::args(&rt)?.len() > 1 {
        return usage(&rt);
    }
    let Some(text) = read_text(rt.alloc(), &mut rt.stdin())? else {
        return println!(rt; "too long");
    };
    let mut sheet = WrittenSheet::new();
    match sheet.open(&text) {
        Ok(()) => print_sheet(&rt, &sheet),
        Err(refusal) => print_refused(&rt, &text, refusal),
    }
}
