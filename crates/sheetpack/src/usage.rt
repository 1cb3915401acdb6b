// What the program does, for whoever calls it with an argument.
use console::MOST;
use std::io;

pub(crate) fn usage(rt: &HostRuntime) -> io::Result<()> {
    println!(rt; "usage: sheetpack <SHEET")?;
    println!(rt;
        "reads a written rule sheet of at most {MOST} bytes from standard input, and takes no argument"
    )?;
    println!(rt; "prints the counts, the packed numbers, and each code with its spelling")?;
    println!(rt;
        "a sheet that cannot be packed: prints `refused`, the number of the refusal and its place, and what is wrong"
    )
}
