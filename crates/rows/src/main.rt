//! Answers the rows of its input, and prints the answers. A line `rows KIND` says what the lines behind it are, up to
//! the next such line: rows of `commands`, `trees`, `resolutions`, `texts`, `folders` or `calls`. The program prints the
//! line too. The crate of a kind says what its rows are.
#![tactic(auto)]

mod kinds;

use kinds::Rows;
use std::io;

fn main(rt: HostRuntime) -> io::Result<()> {
    let alloc = rt.alloc();
    let mut rows = Rows::Unknown;
    for line in rt.lines(alloc) {
        let line = line?;
        if let Some(kind) = line.as_str().strip_prefix("rows ") {
            rows = Rows::new(alloc, kind);
            print!(rt; "rows {kind}\n")?;
            continue;
        }
        match rows.answer_line(alloc, line.as_str()) {
            Ok(answer) => print!(rt; "{answer}")?,
            Err(_) => print!(rt; "no memory\n")?,
        }
    }
    Ok(())
}
