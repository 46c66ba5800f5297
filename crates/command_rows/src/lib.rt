//! Rows that run the program `rotor` over folders in memory.
#![tactic(auto)]

mod row;

use rotor_base::Memory;
use row::Row;
use std::alloc::Global;
use std::mem::replace;

/// The row that is read.
#[derive(Drop)]
pub struct CommandRows {
    row: Row,
}

impl CommandRows {
    /// A row without a line.
    pub fn new(alloc: Global) -> Self {
        CommandRows {
            row: Row::new(alloc),
        }
    }

    /// What a line prints. `run` ends a row, and prints how it ends. `cuts` ends a row that runs with each beginning of
    /// its last file. Every other line is one of the row, and prints nothing. `Memory` is the only error.
    pub fn answer_line(&mut self, alloc: Global, line: &str) -> Result<String, Memory> {
        match line {
            "run" => {
                let row = self.take_row(alloc);
                run_row(alloc, &row)
            }
            "cuts" => {
                let row = self.take_row(alloc);
                let mut answer = String::new(alloc);
                for len in 0..row.last_len() {
                    answer.push_str(run_row(alloc, &row.cut(alloc, len)?)?.as_str())?;
                }
                Ok(answer)
            }
            line => {
                self.row.read(alloc, line)?;
                Ok(String::new(alloc))
            }
        }
    }

    /// The row that is read. A row without a line takes its place.
    fn take_row(&mut self, alloc: Global) -> Row {
        replace(&mut self.row, Row::new(alloc))
    }
}

/// How a row ends.
fn run_row(alloc: Global, row: &Row) -> Result<String, Memory> {
    match row.run(alloc) {
        Ok(ended) => Ok(ended),
        Err(Memory) => Ok(String::from_str(alloc, "no memory\n")?),
    }
}
