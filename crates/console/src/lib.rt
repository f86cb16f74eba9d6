// Standard input and output of the programs: words that are read, and what reducing a file gives, as text.
#![tactic(auto)]

#[cfg(test)]
mod tests;

ghost use Rattle.std.specs.Prelude.{◌≡◌, ◌≤◌, min, length, IfOk, IfSome};
ghost use Rattle.file.specs.File.{word_in};

use file::reduce::{LIST, reduce_file};
use mir::record::{Record, records_of};
use std::io::{Read, Write};
use std::{fmt, io};
use walks::Counts;

// The longest file that can be well formed, and a word more, so that a longer one shows. The programs take no heap: what they read and
// reduce has the longest length.
pub const FILE: usize = 20_512;

// The next word of the input, lowest byte first; what is past its end counts as 0.
pub fn word<R: Read>(input: &mut R) -> io::Result<u32>
    ensures { IfOk result (λ w. IfSome (R.remaining input.old) (λ bytes. w ≡ word_in bytes 0)) }
{
    let mut bytes = [0; 4];
    input.chain(&[0; 4][..]).read_exact(&mut bytes)?;
    Ok(u32::from_le_bytes(bytes))
}

// The next word as a length, but at most `most`.
pub fn length_to<R: Read>(input: &mut R, most: usize) -> io::Result<usize>
    ensures bound { IfOk result (λ n. n ≤ most) }
    ensures value { IfOk result (λ n. IfSome (R.remaining input.old) (λ bytes. n ≡ min (word_in bytes 0) most)) }
{
    let n = word(input)? as usize;
    Ok(n.min(most))
}

// Reads until `buf` is full or the input ends, and answers how many bytes now stand at its start. No method of std does so
// without the heap: `read_exact` does not say how many it read, and `read_to_end` takes a `Vec`.
fn read_full(input: &mut impl Read, buf: &mut [u8]) -> io::Result<usize>
    ensures { IfOk result (λ n. n ≤ length buf.new) }
{
    let mut done = 0;
    while done < buf.len() {
        let n = input.read(&mut buf[done..])?;
        if n == 0 {
            break;
        }
        done += n;
    }
    Ok(done)
}

// A record as text: its words, with a blank between each two.
#[derive(Clone, Copy)]
struct Shown<'a>(&'a Record);

impl fmt::Display for Shown<'_> {
    fn fmt<W: fmt::Write>(&self, f: &mut fmt::Formatter<W>) -> fmt::Result {
        let words = self.0;
        write!(f, "{}", words[0])?;
        for word in &words[1..] {
            write!(f, " {word}")?;
        }
        Ok(())
    }
}

// A reduced list as text: a record a line, and then what was dropped.
#[derive(Clone, Copy)]
struct Reduced<'a> {
    records: &'a [Record],
    counts: Counts,
}

impl fmt::Display for Reduced<'_> {
    fn fmt<W: fmt::Write>(&self, f: &mut fmt::Formatter<W>) -> fmt::Result {
        for record in self.records {
            writeln!(f, "{}", Shown(record))?;
        }
        let t = self.counts.tally;
        writeln!(f, "dropped {} {} {} {}", t.nops, t.loads, t.moves, t.saves)
    }
}

// What reducing a file gives: a record a line and what was dropped, or the refusal.
pub fn show(out: &mut impl Write, file: &[u8]) -> io::Result<()> {
    let mut words = [0; LIST];
    match reduce_file(file, &mut words) {
        Ok(counts) => {
            let records = &records_of(&words)[..counts.tally.records as usize];
            write!(out, "{}", Reduced { records, counts })
        }
        Err(refusal) => writeln!(out, "{refusal}"),
    }
}

// That the input was not read or the output not written, and why.
#[derive(Debug, Drop)]
pub enum Failure {
    Input(io::Error),
    Output(io::Error),
}

impl fmt::Display for Failure {
    fn fmt<W: fmt::Write>(&self, f: &mut fmt::Formatter<W>) -> fmt::Result {
        match self {
            Failure::Input(why) => write!(f, "can't read standard input: {why}"),
            Failure::Output(why) => write!(f, "can't write standard output: {why}"),
        }
    }
}

// Reads the input into `file`, as far as there is room, and shows what reducing it gives.
pub fn show_input(
    input: &mut impl Read,
    out: &mut impl Write,
    file: &mut [u8],
) -> Result<(), Failure> {
    match read_full(input, file) {
        Ok(n) => show(out, &file[..n]).map_err(Failure::Output),
        Err(why) => Err(Failure::Input(why)),
    }
}
