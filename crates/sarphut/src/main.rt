//! Rehearses setup A over a lamp panel: every call with its answer, then the blocks of the journal, each read back.
#![tactic(auto)]

mod blocks;
mod rehearsal;
mod requests;

use rehearsal::rehearse;
use std::alloc::Global;
use std::io::{self, BufWriter, Write};
use std::process::ExitCode;

// Prints the rehearsal through a buffer, and answers whether every block read back.
fn rehearse_buffered<W: Write + Drop>(alloc: Global, out: W) -> io::Result<bool> {
    let mut out = BufWriter::new(alloc, out)?;
    rehearse(alloc, &mut out)
}

// The status is 1 where a block did not read back, which its line says, and where output or memory failed.
fn main(rt: HostRuntime) -> ExitCode {
    match rehearse_buffered(rt.alloc(), rt.stdout()) {
        Ok(true) => ExitCode::SUCCESS,
        Ok(false) => ExitCode::FAILURE,
        Err(e) => {
            let _ = eprintln!(rt; "sarphut: {e}");
            ExitCode::FAILURE
        }
    }
}
