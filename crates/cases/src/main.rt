// Reduces stored files one after the other, and prints what is left of each. Standard input is the number of cases and then
// each file, its length in bytes before it; docs/FORMAT.md has the form, and importer/ makes it from the original.
#![tactic(auto)]

use console::{FILE, Failure, length_to, show_input, word};
use std::io::Write;

fn main(rt: HostRuntime) -> Result<(), Failure> {
    let mut input = rt.stdin();
    let mut out = rt.stdout();
    let mut file = [0; FILE];
    let cases = word(&mut input).map_err(Failure::Input)?;
    for case in 1..=cases {
        writeln!(out, "case {case}").map_err(Failure::Output)?;
        let n = length_to(&mut input, FILE).map_err(Failure::Input)?;
        show_input(&mut input, &mut out, &mut file[..n])?;
    }
    Ok(())
}
