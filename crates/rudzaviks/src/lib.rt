// The functions that crate rudzaviks_c exports to C: each takes word slices and numbers, and answers in one 64-bit word.
#![tactic(auto)]

ghost use Rattle.std.specs.Prelude.{◌/◌, ◌%◌, ◌^◌, ◌≤◌, [], ◌∷◌, Some, ◌≡◌, length, get_or};
ghost use Rattle.walks.specs.Lent.{lent, values_in};
ghost use Rattle.rudzaviks.specs.Exports.{RudzaviksSurvey, RudzaviksOptimize, RudzaviksReduce, refusal_word, report_word, records_word};
ghost use Rattle.file.specs.File.{flag, settings_of, layout_of};
ghost use Rattle.mir.specs.Answers.{number_of, over, unless, verdict_in};
ghost use Rattle.survey.specs.Beside.{place_in};

pub mod laws;

use allocator::words::optimize_words;
use file::layout::{Layout, layout_of, write_words};
use file::reduce::{LIST, reduce_sections};
use file::settings_of;
use mir::config::Settings;
use mir::questions::check_sizes;
use mir::refusal::{Question, Refusal};
use questions::check_start;
use survey::survey;
use walks::Counts;

// A refusal as the word that C gets: the question's number above bit 32, the record's index below it.
pub fn refusal_word(refusal: Refusal) -> u64
    ensures { result ≡ refusal_word (number_of refusal.question) refusal.index }
{
    let number = refusal.question.number();
    u64::from(number) * 4_294_967_296 + u64::from(refusal.index)
}

// The settings that a survey looks at.
fn settings_beside(count_regs: u32, compress: u32) -> Settings
    ensures { (result.count_regs ≡ count_regs) × (result.compress ≡ flag compress) }
{
    settings_of(count_regs, 0, 0, 0, compress)
}

// The label's place as a word: its index, or 4,294,967,295 where it is absent, since C gets a word.
fn place_word(place: Option<u32>) -> u32
    ensures { result ≡ get_or (place_in place) 0 4294967295 }
{
    place.unwrap_or(u32::MAX)
}

// The parts of a survey at the start of a slice: the mask as two words, the low one first.
fn write_parts(mask: u64, count: u32, place: u32, parts: &mut [u32])
    requires { 4 ≤ length parts.old }
    ensures { parts.new ≡ over (mask % 2 ^ 32 ∷ mask / 2 ^ 32 ∷ count ∷ place ∷ []) parts.old }
{
    let low = (mask % 4_294_967_296) as u32;
    let high = (mask / 4_294_967_296) as u32;
    parts[..4].copy_from_slice(&[low, high, count, place]);
}

// `survey`: the label's place, or a refusal; the mask, how many registers it names and the place go into `parts`.
pub fn rudzaviks_survey(
    list: &[u32],
    table: &[u32],
    count_regs: u32,
    compress: u32,
    label: u32,
    parts: &mut [u32],
) -> u64
    ensures { RudzaviksSurvey count_regs (flag compress) label list.now table.now parts.old parts.new result }
{
    if parts.len() < 4 {
        return verdict_word(check_sizes(list.len(), table.len(), count_regs, false));
    }
    let settings = settings_beside(count_regs, compress);
    match survey(list, table, settings, label) {
        Ok(registers) => {
            let index = place_word(registers.place);
            write_parts(registers.mask, registers.count, index, parts);
            u64::from(index)
        }
        Err(refusal) => refusal_word(refusal),
    }
}

// How many counts there are.
const COUNTS: usize = 8;

// The counts at the start of a slice.
fn write_counts(c: Counts, counts: &mut [u32])
    requires { 8 ≤ length counts.old }
    ensures { counts.new ≡ over (values_in c) counts.old }
{
    let t = c.tally;
    counts[..COUNTS].copy_from_slice(&[
        t.records, c.statics, c.members, t.nops, t.loads, t.moves, t.saves, c.fullest,
    ]);
}

// What a list without room is answered with, as the word that C gets: 0 would be for a list that passes.
fn verdict_word(answer: Result<(), Refusal>) -> u64
    ensures { result ≡ report_word records_word (unless (verdict_in answer) []) }
{
    match answer {
        Ok(()) => 0,
        Err(refusal) => refusal_word(refusal),
    }
}

// `optimize`: the number of records that the reduced list has, or a refusal; the eight counts go into `counts`.
pub fn rudzaviks_optimize(
    list: &[u32],
    table: &[u32],
    count_regs: u32,
    args: u32,
    complex: u32,
    arm: u32,
    compress: u32,
    out: &mut [u32],
    colours: &mut [u32],
    ends: &mut [u32],
    set: &mut [u32],
    counts: &mut [u32],
) -> u64
    ensures { RudzaviksOptimize (settings_of count_regs args complex arm compress) list.now table.now (lent out.old colours.old ends.old set.old) counts.old (lent out.new colours.new ends.new set.new) counts.new result }
{
    let settings = settings_of(count_regs, args, complex, arm, compress);
    if counts.len() < COUNTS {
        return verdict_word(check_start(settings, list.len(), table.len(), false));
    }
    match optimize_words(list, table, settings, out, colours, ends, set) {
        Ok(c) => {
            write_counts(c, counts);
            u64::from(c.tally.records)
        }
        Err(refusal) => refusal_word(refusal),
    }
}

// A well-formed file reduced into bytes.
fn reduce_bytes(file: &[u8], layout: Layout, out: &mut [u8]) -> u64
    requires { layout_of file.now ≡ Some layout }
    ensures { RudzaviksReduce file.now out.old out.new result }
{
    let room = 4 + layout.records * 32 <= out.len();
    let mut words = [0u32; LIST];
    match reduce_sections(file, layout, room, &mut words) {
        Ok(c) => {
            let count = c.tally.records;
            let end = (count as usize) * 8;
            write_words(count, &words[..end], out);
            u64::from(count)
        }
        Err(refusal) => refusal_word(refusal),
    }
}

// The file reduced into bytes: the number of records, or a refusal.
pub fn rudzaviks_reduce(file: &[u8], out: &mut [u8]) -> u64
    ensures { RudzaviksReduce file.now out.old out.new result }
{
    match layout_of(file) {
        Some(layout) => reduce_bytes(file, layout, out),
        None => refusal_word(Question::Lengths.of_list()),
    }
}
