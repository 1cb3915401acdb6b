// What the program does, for whoever calls it with an argument.
use console::MOST;
use std::io;

pub(crate) fn usage(rt: &HostRuntime) -> io::Result<()> {
    println!(rt; "usage: planlines <LINES")?;
    println!(rt;
        "reads at most {MOST} bytes from standard input, and takes no argument: a written rule sheet, a line that is `=`, and designers' lines"
    )?;
    println!(rt;
        "a designer's line is a digit from 0 to 7 and words without quotes, divided by spaces"
    )?;
    println!(rt;
        "prints `booked` and the count, or `refused` and the number, for each line, and then the numbers of the book"
    )?;
    println!(rt; "a sheet that is refused: prints `refused` and the number alone")
}
