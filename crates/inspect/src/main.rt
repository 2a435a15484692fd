//! Prints a journal that comes on standard input.
#![tactic(auto)]

mod counts;
mod listing;
mod report;
#[cfg(test)]
mod tests;

use counts::Counts;
use listing::list;
use std::alloc::Global;
use std::io::{self, BufReader, BufWriter, Read, Write};
use std::process::ExitCode;

// Prints the journal that an input gives, both through buffers, and answers its counts.
fn list_buffered<R: Read + Drop, W: Write + Drop>(
    alloc: Global,
    input: R,
    out: W,
) -> io::Result<Counts> {
    let mut input = BufReader::new(alloc, input)?;
    let mut out = BufWriter::new(alloc, out)?;
    list(&mut input, &mut out)
}

// The status is 1 where a block was refused, which the listing says, and where input,
// output or memory for the buffers failed.
fn main(rt: HostRuntime) -> ExitCode {
    match list_buffered(rt.alloc(), rt.stdin(), rt.stdout()) {
        Ok(counts) => {
            if counts.refused == 0 {
                ExitCode::SUCCESS
            } else {
                ExitCode::FAILURE
            }
        }
        Err(e) => {
            let _ = eprintln!(rt; "inspect: {e}");
            ExitCode::FAILURE
        }
    }
}
