// What the program does, for whoever calls it with an argument.
use console::MOST;
use std::io;

pub(crate) fn usage(rt: &HostRuntime) -> io::Result<()> {
    println!(rt; "usage: sheettables <SHEET")?;
    println!(rt;
        "reads a written rule sheet of at most {MOST} bytes from standard input, and takes no argument"
    )?;
    println!(rt; "prints each state of its tables: items, cells, and moves by phrase kinds")?;
    println!(rt;
        "a sheet that has no tables: prints `refused`, the number of the refusal and what it tells, and what is wrong"
    )
}
