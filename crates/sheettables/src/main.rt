// Tells the tables of the written rule sheet on standard input, or why it has none.
#![tactic(auto)]

use console::read_text;
use std::{env, io};
use tables::Tables;
use written::WrittenSheet;

mod item;
mod items;
mod reason;
mod refused;
mod spelled;
mod state;
#[cfg(test)]
mod tests;
mod usage;

use refused::{print_unbuilt, print_unopened};
use state::State;
use usage::usage;

fn print_states<'a>(
    rt: &HostRuntime,
    sheet: &'a WrittenSheet<'a>,
    tables: &'a Tables,
) -> io::Result<()> {
    let count = tables.states();
    // By number, which is what is told first.
    for number in 0..count {
        println!(rt;
            "{}",
            State {
                sheet,
                tables,
                number
            }
        )?;
    }
    println!(rt; "built, {count} states")
}

fn main(rt: HostRuntime) -> io::Result<()> {
    if env::args(&rt)?.len() > 1 {
        return usage(&rt);
    }
    let Some(text) = read_text(rt.alloc(), &mut rt.stdin())? else {
        return println!(rt; "too long");
    };
    let mut sheet = WrittenSheet::new();
    if let Err(refusal) = sheet.open(&text) {
        return print_unopened(&rt, &text, refusal);
    }
    let mut tables = Tables::new();
    match tables.build(&sheet) {
        Ok(()) => print_states(&rt, &sheet, &tables),
        Err(refusal) => print_unbuilt(&rt, &sheet, refusal),
    }
}
