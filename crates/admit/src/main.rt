//! Prints the verdicts on setup A, on variants of it, and on guests that have no task,
//! and the drawing of each timetable.
#![tactic(auto)]

mod drawing;
mod verdicts;
mod without_tasks;

use std::alloc::Global;
use std::io::{self, BufWriter, Write};
use std::process::ExitCode;
use verdicts::print_all;

// Prints all verdicts through a buffer.
fn print_buffered<W: Write + Drop>(alloc: Global, out: W) -> io::Result<()> {
    let mut out = BufWriter::new(alloc, out)?;
    print_all(&mut out)
}

// The status is 1 where the verdicts could not be written, or there was no memory for the buffer.
fn main(rt: HostRuntime) -> ExitCode {
    match print_buffered(rt.alloc(), rt.stdout()) {
        Ok(()) => ExitCode::SUCCESS,
        Err(e) => {
            let _ = eprintln!(rt; "admit: {e}");
            ExitCode::FAILURE
        }
    }
}
