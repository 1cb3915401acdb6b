// Books the lines on standard input by the written rule sheet in front of them, and prints the answers and the book.
#![tactic(auto)]

use book::PrintedPage;
use console::read_text;
use plan::{LineAsked, book_all};
use std::alloc::{AllocError, Global};
use std::io::Write;
use std::{env, io};
use written::WrittenSheet;

mod divide;
mod typed_line;
mod usage;

use divide::divide;
use typed_line::{TypedLine, read_line};
use usage::usage;

// The bytes of the page: room for 10,000 numbers.
const PAGE_BYTES: usize = 60000;

fn print_refused(rt: &HostRuntime, number: u8) -> io::Result<()> {
    println!(rt; "refused {number}")
}

// What each line says. A last newline begins no line.
fn read_lines(
    alloc: Global,
    sheet: &WrittenSheet<'_>,
    lines: &[u8],
) -> Result<Vec<TypedLine>, AllocError> {
    let mut typed = Vec::new(alloc);
    for part in lines.split_inclusive(|b| *b == b'\n') {
        let line = part.strip_suffix(b"\n").unwrap_or(part);
        typed.push(read_line(alloc, sheet, line)?)?;
    }
    Ok(typed)
}

fn print_answers(rt: &HostRuntime, lines: &[LineAsked<'_>]) -> io::Result<()> {
    for line in lines {
        match line.answer {
            Some(Ok(count)) => println!(rt; "booked {count}")?,
            Some(Err(refusal)) => print_refused(rt, refusal.number())?,
            // Each line is answered.
            None => {}
        }
    }
    Ok(())
}

// Books all lines by a sheet that opened; prints their answers, and then what the page holds.
fn print_plan(rt: &HostRuntime, sheet: &WrittenSheet<'_>, lines: &[u8]) -> io::Result<()> {
    let typed = read_lines(rt.alloc(), sheet, lines)?;
    let mut asked: Vec<LineAsked<'_>> = typed
        .iter()
        .map(|line| LineAsked {
            designer: line.designer,
            words: &line.words,
            answer: None,
        })
        .collect(rt.alloc())?;
    let mut memory = vec![in rt.alloc(); 0u8; PAGE_BYTES]?;
    match book_all(sheet, PrintedPage::open(&mut memory), &mut asked) {
        Ok(page) => {
            print_answers(rt, &asked)?;
            rt.stdout().write_all(page.bytes())
        }
        Err((refusal, _page)) => print_refused(rt, refusal.number()),
    }
}

fn main(rt: HostRuntime) -> io::Result<()> {
    if env::args(&rt)?.len() > 1 {
        return usage(&rt);
    }
    let Some(input) = read_text(rt.alloc(), &mut rt.stdin())? else {
        return println!(rt; "too long");
    };
    let (text, lines) = divide(&input);
    let mut sheet = WrittenSheet::new();
    match sheet.open(text) {
        Ok(()) => print_plan(&rt, &sheet, lines),
        Err(refusal) => print_refused(&rt, refusal.number()),
    }
}
