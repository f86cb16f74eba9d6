// Replays stored answers of the original Rust against the functions of crate rudzaviks, which rudzaviks_c exports.
// Each reduced list also goes through `optimize`, which is lent entries for the statics.
// docs/FORMAT.md has the form of its input, which importer/ makes; this program needs no Rust.
#![tactic(auto)]

ghost use Rattle.std.specs.Prelude.{◌≡◌, ◌≢◌, ◌+◌, ◌*◌, ◌/◌, ◌%◌, ◌^◌, IsTrue, ◌≤◌, ◌↔◌, length, IfOk, IfSome, IsSome};
ghost use Rattle.file.specs.File.{word_in};

mod entries;

use crate::entries::{same_entries, word_of};
use allocator::optimize;
use allocator::statics::Static;
use console::{length_to, word};
use file::settings_of;
use rudzaviks::{rudzaviks_optimize, rudzaviks_survey};
use std::io;
use std::io::{Read, Write};

// The longest table and list of a stored case, in words. All words stand in fixed memory, since the heap's functions would
// be assumed besides.
const TABLE: usize = 1024;

const LIST: usize = 4096;

// The longest slices that are lent with a stored case: what the above ask for, and four words more.
const OUT: usize = 4100;

const STATICS: usize = 1028;

const SET: usize = 3076;

const COUNTS: usize = 12;

const PARTS: usize = 7;

// What every word of a lent slice is at first.
const FILL: u32 = 2_779_096_485;

// What every entry is at first.
const UNWRITTEN: Static = Static {
    colour: FILL,
    end: FILL,
};

// Puts the next words, their number first, at the start of `space`, and answers them; none if they had no room there.
fn words<'a, R: Read>(input: &mut R, space: &'a mut [u32]) -> io::Result<Option<&'a [u32]>>
    ensures fits { IfOk result (λ o. IfSome o (λ w. length w.now ≤ length space.entry.now)) }
    ensures room { IfOk result (λ o. IfSome (R.remaining input.old) (λ bytes. IsSome o ↔ (word_in bytes 0 ≤ length space.entry.now))) }
    ensures len { IfOk result (λ o. IfSome (R.remaining input.old) (λ bytes. IfSome o (λ w. length w.now ≡ word_in bytes 0))) }
{
    let n = word(input)? as usize;
    for i in 0..n {
        let next = word(input)?;
        if let Some(place) = space.get_mut(i) {
            *place = next;
        }
    }
    Ok(space.get(..n))
}

// Whether `got` starts with the next words, their number first, and holds FILL after them.
fn starts(input: &mut impl Read, got: &[u32]) -> io::Result<bool> {
    let n = word(input)? as usize;
    let (stored, rest) = got.split_at(n.min(got.len()));
    let mut same = n <= got.len() && rest.iter().all(|w| *w == FILL);
    for w in stored {
        same &= *w == word(input)?;
    }
    Ok(same)
}

// What is asked in a stored case. Of an unknown operation only a refusal can agree.
#[derive(Clone, Copy)]
enum Operation {
    Registers,
    Place,
    Optimize,
    Survey,
    Unknown,
}

impl From<u32> for Operation {
    fn from(code: u32) -> Operation {
        match code {
            1 => Operation::Registers,
            2 => Operation::Place,
            3 => Operation::Optimize,
            4 => Operation::Survey,
            _ => Operation::Unknown,
        }
    }
}

// The settings as words, which is how C gives them.
#[derive(Clone, Copy)]
struct Settings {
    count_regs: u32,
    args: u32,
    complex: u32,
    arm: u32,
    compress: u32,
}

impl Settings {
    fn read(input: &mut impl Read) -> io::Result<Settings> {
        Ok(Settings {
            count_regs: word(input)?,
            args: word(input)?,
            complex: word(input)?,
            arm: word(input)?,
            compress: word(input)?,
        })
    }
}

// A stored answer. That of one part has it in the low word, and in the upper eight bits of the high one how many registers
// there are; the other bits of the high one are a refusal's number.
#[derive(Clone, Copy)]
struct Stored {
    low: u32,
    high: u32,
}

impl Stored {
    fn read(input: &mut impl Read) -> io::Result<Stored> {
        Ok(Stored {
            low: word(input)?,
            high: word(input)?,
        })
    }

    fn answer(self) -> u64
        ensures { result ≡ self.high * 2 ^ 32 + self.low }
    {
        u64::from(self.high) << 32 | u64::from(self.low)
    }

    fn is_refusal(self) -> bool
        ensures { IsTrue result ↔ (self.high % 2 ^ 24 ≢ 0) }
    {
        self.high % (1 << 24) != 0
    }

    fn registers(self) -> u32
        ensures { result ≡ self.high / 2 ^ 24 }
    {
        self.high >> 24
    }
}

// The slices that are lent to `optimize`.
#[derive(Drop)]
struct Lent<'a> {
    out: &'a mut [u32],
    colours: &'a mut [u32],
    ends: &'a mut [u32],
    set: &'a mut [u32],
    counts: &'a mut [u32],
}

impl Lent<'_> {
    // Whether each is as it is stored next.
    fn are_stored(&self, input: &mut impl Read) -> io::Result<bool> {
        let mut same = starts(input, self.out)?;
        same &= starts(input, self.colours)?;
        same &= starts(input, self.ends)?;
        same &= starts(input, self.set)?;
        same &= starts(input, self.counts)?;
        Ok(same)
    }
}

// What a stored case is asked about.
#[derive(Clone, Copy)]
struct Case<'a> {
    settings: Settings,
    label: u32,
    list: &'a [u32],
    table: &'a [u32],
}

impl Case<'_> {
    fn survey(self, parts: &mut [u32]) -> u64 {
        let s = self.settings;
        rudzaviks_survey(
            self.list,
            self.table,
            s.count_regs,
            s.compress,
            self.label,
            parts,
        )
    }

    fn optimize(self, lent: &mut Lent<'_>) -> u64 {
        let s = self.settings;
        rudzaviks_optimize(
            self.list,
            self.table,
            s.count_regs,
            s.args,
            s.complex,
            s.arm,
            s.compress,
            lent.out,
            lent.colours,
            lent.ends,
            lent.set,
            lent.counts,
        )
    }

    // Whether `survey` gives the stored part: the mask and how many registers it names, or the label's place; or its
    // refusal, which leaves the lent words. The first has lists of at most 32 registers, so that the mask's high word has
    // every bit with `compress`, and else none.
    fn has_part(self, operation: Operation, stored: Stored) -> bool {
        let mut parts = [FILL; 4];
        let got = self.survey(&mut parts);
        if stored.is_refusal() {
            return got == stored.answer() && parts == [FILL; 4];
        }
        let every = if self.settings.compress == 0 {
            0
        } else {
            u32::MAX
        };
        let [low, high, count, place] = parts;
        match operation {
            Operation::Registers => {
                [low, high, count] == [stored.low, every, stored.registers()]
            }
            Operation::Place => got == u64::from(stored.low) && place == stored.low,
            _ => false,
        }
    }

    // Whether `survey` gives the stored answer, and leaves a slice of the stored length as it is stored.
    fn surveys(self, stored: Stored, input: &mut impl Read) -> io::Result<bool> {
        let mut parts = [FILL; PARTS];
        let n = length_to(input, PARTS)?;
        let got = self.survey(&mut parts[..n]);
        Ok(starts(input, &parts[..n])? && got == stored.answer())
    }

    // Whether `optimize` with entries, as many as the shorter slice of words has, answers as the stored answer says, and
    // leaves what the words are.
    fn has_entries(self, lent: &Lent<'_>, answer: u64) -> bool {
        let mut out = [FILL; OUT];
        let mut statics = [UNWRITTEN; STATICS];
        let mut set = [FILL; SET];
        let room = lent.colours.len().min(lent.ends.len());
        let out = &mut out[..lent.out.len().min(OUT)];
        let statics = &mut statics[..room.min(STATICS)];
        let set = &mut set[..lent.set.len().min(SET)];
        let s = self.settings;
        let settings = settings_of(s.count_regs, s.args, s.complex, s.arm, s.compress);
        let given = optimize(self.list, self.table, settings, out, statics, set);
        word_of(given) == answer
            && *out == *lent.out
            && same_entries(statics, lent.colours, lent.ends)
            && *set == *lent.set
    }

    // Whether the C entry and `optimize` give the stored answer, and leave slices of the stored lengths as they are stored.
    // The latter has no slice of counts, so a case that is refused for that slice is the C entry's alone.
    fn optimizes(self, stored: Stored, input: &mut impl Read) -> io::Result<bool> {
        let mut out = [FILL; OUT];
        let mut colours = [FILL; STATICS];
        let mut ends = [FILL; STATICS];
        let mut set = [FILL; SET];
        let mut counts = [FILL; COUNTS];
        let mut lent = Lent {
            out: &mut out[..length_to(input, OUT)?],
            colours: &mut colours[..length_to(input, STATICS)?],
            ends: &mut ends[..length_to(input, STATICS)?],
            set: &mut set[..length_to(input, SET)?],
            counts: &mut counts[..length_to(input, COUNTS)?],
        };
        let got = self.optimize(&mut lent);
        let same = lent.are_stored(input)? && got == stored.answer();
        Ok(same && (lent.counts.len() < 8 || self.has_entries(&lent, got)))
    }

    // Whether the operation's answer is the stored one, which comes next.
    fn agrees(self, operation: Operation, input: &mut impl Read) -> io::Result<bool> {
        let stored = Stored::read(input)?;
        match operation {
            Operation::Optimize => self.optimizes(stored, input),
            Operation::Survey => self.surveys(stored, input),
            _ => Ok(self.has_part(operation, stored)),
        }
    }
}

// Whether the next case's answer is the stored one.
fn replay(input: &mut impl Read) -> io::Result<bool> {
    let operation = Operation::from(word(input)?);
    let settings = Settings::read(input)?;
    let label = word(input)?;
    let mut table = [0; TABLE];
    let Some(table) = words(input, &mut table)? else {
        return Ok(false);
    };
    let mut list = [0; LIST];
    let Some(list) = words(input, &mut list)? else {
        return Ok(false);
    };
    let case = Case {
        settings,
        label,
        list,
        table,
    };
    case.agrees(operation, input)
}

fn main(rt: HostRuntime) -> io::Result<()> {
    let mut input = rt.stdin();
    let mut out = rt.stdout();
    let cases = word(&mut input)?;
    let mut differ = 0u32;
    for i in 0..cases {
        if !replay(&mut input)? {
            writeln!(out, "differs: case {i}")?;
            differ += 1;
        }
    }
    writeln!(out, "{cases} answers replayed, {differ} differ")
}
