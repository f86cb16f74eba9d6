// Reduces the file on standard input, and prints what is left of it (document 01, section 8).
#![tactic(auto)]

use console::{FILE, show_input};
use std::process::ExitCode;

// A failed read or write is told on standard error, and by the exit status.
fn main(rt: HostRuntime) -> ExitCode {
    let mut file = [0u8; FILE];
    match show_input(&mut rt.stdin(), &mut rt.stdout(), &mut file) {
        Ok(()) => ExitCode::SUCCESS,
        Err(failure) => {
            let _ = eprintln!(rt; "reduce: {failure}");
            ExitCode::FAILURE
        }
    }
}
