// The first walk: each record is asked its questions (document 01, section 7), and what passes gives each static's end (section 2).
#![tactic(auto)]

mod by_kind;

ghost use Rattle.std.specs.Prelude.{◌+◌, ◌*◌, ◌<◌, ◌≤◌, ◌≡◌, true, length, IfErr};
ghost use Rattle.mir.specs.Answers.{Refused, number_of, left, over, verdict_in};
ghost use Rattle.lives.specs.Lives.{Turned, Creates, first_records};
ghost use Rattle.mir.specs.Folds.{first_refusal};
ghost use Rattle.mir.specs.Questions.{well_sized, record_by, record_refusal, list_refusal};
ghost use Rattle.mir.specs.Records.{max_regs, records, word_at};
ghost use Rattle.mir.specs.Shapes.{any, sources};
ghost use Rattle.passes.specs.Create.{consumed, ends_of};
ghost use Rattle.passes.specs.Create as create;

use mir::questions::{check_record, past_after};
use mir::record::{Record, records_of};
use mir::refusal::{Question, Refusal};
use mir::rename::{Renaming, static_of};
use mir::shape::sources_of;
use questions::branches::check_branches;

// A source is read at instruction `i`: the static that it holds ends there, so far.
#[inline(always)]
fn consume(renaming: &Renaming, w: u32, i: u16, ends: &mut [u16])
    requires { renaming.now.statics ≤ length ends.old }
    ensures { ends.new ≡ create.consume renaming.now.regs i w ends.old }
{
    let Some(s) = static_of(&renaming.regs, w) else {
        return;
    };
    ends[s as usize] = i;
}

// A record's sources are read.
#[inline(always)]
fn consume_sources(renaming: &Renaming, kind: u32, rec: &Record, i: u16, ends: &mut [u16])
    requires kind_is { kind ≡ word_at rec.now 0 }
    requires statics_fit { renaming.now.statics ≤ length ends.old }
    ensures { ends.new ≡ consumed renaming.now.regs i (sources rec.now) ends.old }
{
    for &w in sources_of(kind, rec) {
        consume(renaming, w, i, ends);
    }
}

// One turn of the walk: the record is asked, and of one that passes the sources are read, and a static that it makes ends there, so
// far. Gives how many statics were written before the last BranchIf then.
#[inline(always)]
fn create_turn(
    kind: u32,
    rec: &Record,
    table: &[u32],
    count_regs: u32,
    past: usize,
    end: u16,
    renaming: &mut Renaming,
    ends: &mut [u16],
) -> Result<usize, Question>
    requires kind_is { kind ≡ word_at rec.now 0 }
    requires few { renaming.old.statics + 2 ≤ length ends.old }
    requires next_fits { renaming.old.statics + 1 < any }
    ensures { Turned table.now count_regs past rec.now end renaming.old renaming.new ends.old ends.new result }
{
    check_record(kind, rec, table, count_regs, &renaming.regs, past)?;
    let after = past_after(kind, renaming.statics, past);
    consume_sources(renaming, kind, rec, end, ends);
    let first = renaming.statics;
    renaming.pass(kind, rec);
    ends[first..renaming.statics].fill(end);
    Ok(after)
}

// The turn of the record's kind.
fn create_by_kind(
    rec: &Record,
    table: &[u32],
    count_regs: u32,
    past: usize,
    end: u16,
    renaming: &mut Renaming,
    ends: &mut [u16],
) -> Result<usize, Question>
    requires few { renaming.old.statics + 2 ≤ length ends.old }
    requires next_fits { renaming.old.statics + 1 < any }
    ensures { Turned table.now count_regs past rec.now end renaming.old renaming.new ends.old ends.new result }
{
    by_kind!(
        rec,
        create_turn(rec, table, count_regs, past, end, renaming, ends)
    )
}

// Questions 5 to 9 and 15, put to the first `until` records, and the ends of their statics if they pass, from the start of the slice on.
// Gives how many there are.
fn create_records(
    list: &[u32],
    table: &[u32],
    count_regs: u32,
    until: usize,
    ends: &mut [u16],
) -> Result<usize, Refusal>
    requires few { count_regs ≤ max_regs }
    requires sized { well_sized (length list.now) (length table.now) ≡ true }
    requires within { until ≤ records list.now }
    requires ends_room { until * 2 ≤ length ends.old }
    ensures { Creates list.now table.now count_regs until ends.old ends.new result }
{
    let mut renaming = Renaming::new();
    let mut past = 0;
    for (i, rec) in records_of(&list[..until * 8]).iter().enumerate() {
        // Not `map_err` and `?`: the proof does not reach what a closure gives there.
        match create_by_kind(rec, table, count_regs, past, i as u16, &mut renaming, ends) {
            Ok(after) => past = after,
            Err(question) => return Err(question.of_record(i as u32)),
        }
    }
    Ok(renaming.statics)
}

// The ends as words, at the start of the lent slice.
fn write_ends(own: &[u16], ends: &mut [u32])
    requires { length own.now ≤ length ends.old }
    ensures { ends.new ≡ over own.now ends.old }
{
    for k in 0..own.len() {
        ends[k] = u32::from(own[k]);
    }
}

// The ends go to the lent slice once every question has passed, so that a refusal changes nothing. Kept out of its caller's frame, or
// a short list would take the stack of a long one.
#[inline(never)]
fn create_in<const N: usize>(
    list: &[u32],
    table: &[u32],
    count_regs: u32,
    ends: &mut [u32],
) -> Result<(), Refusal>
    requires few { count_regs ≤ max_regs }
    requires sized { well_sized (length list.now) (length table.now) ≡ true }
    requires space { records list.now * 2 ≤ N }
    requires small { N ≤ 131072 }
    requires ends_room { records list.now * 2 ≤ length ends.old }
    ensures answer { verdict_in result ≡ list_refusal count_regs list.now table.now }
    ensures ends { ends.new ≡ left (list_refusal count_regs list.now table.now) (ends_of list.now) ends.old }
{
    let mut own = [0; N];
    let statics = create_records(list, table, count_regs, list.len() / 8, &mut own)?;
    check_branches(list)?;
    write_ends(&own[..statics], ends);
    Ok(())
}

// Questions 5 to 9 and 15, put to the first records of a long list before it takes the space of its class, which would be most of the
// time if one of them is refused. A refusal is the list's; where they pass, nothing is said of the other records.
#[inline(never)]
pub fn ask_first(list: &[u32], table: &[u32], count_regs: u32) -> Result<(), Refusal>
    requires few { count_regs ≤ max_regs }
    requires sized { well_sized (length list.now) (length table.now) ≡ true }
    ensures answer { verdict_in result ≡ first_refusal (record_by table.now count_regs list.now) (first_records list.now) }
    ensures refused { IfErr result (λ r. Refused (number_of r.question) r.index ≡ record_refusal table.now count_regs list.now) }
{
    let mut own = [0; 1_536];
    let until = (list.len() / 128).min(768);
    create_records(list, table, count_regs, until, &mut own)?;
    Ok(())
}

// The questions that are put to records, and each static's end, in order, in the lent slice. Working space is for two statics a record
// of as many records as the classes of the read set's index have at most (crate walks).
pub fn create(list: &[u32], table: &[u32], count_regs: u32, ends: &mut [u32]) -> Result<(), Refusal>
    requires few { count_regs ≤ max_regs }
    requires sized { well_sized (length list.now) (length table.now) ≡ true }
    requires ends_room { records list.now * 2 ≤ length ends.old }
    ensures answer { verdict_in result ≡ list_refusal count_regs list.now table.now }
    ensures ends { ends.new ≡ left (list_refusal count_regs list.now table.now) (ends_of list.now) ends.old }
{
    let records = list.len() / 8;
    if records <= 768 {
        return create_in::<1_536>(list, table, count_regs, ends);
    }
    ask_first(list, table, count_regs)?;
    if records <= 5_120 {
        create_in::<10_240>(list, table, count_regs, ends)
    } else {
        create_in::<131_072>(list, table, count_regs, ends)
    }
}
