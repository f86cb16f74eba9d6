// The walks, one after the other: `create` of crate lives, which asks a list its questions, and of one that passes `color` of crate
// coloring, and `contract`.
#![tactic(auto)]

ghost use Rattle.std.specs.Prelude.{◌+◌, ◌*◌, ◌/◌, ◌^◌, ◌<◌, ◌≤◌, [], ◌≡◌, true, length};
ghost use Rattle.mir.specs.Answers.{over};
ghost use Rattle.mir.specs.Answers as verdict;
ghost use Rattle.mir.specs.declared.config.Settings.{Settings};
ghost use Rattle.mir.specs.Questions.{well_sized, start_refusal, list_refusal};
ghost use Rattle.mir.specs.Records.{records};
ghost use Rattle.passes.specs.Contract.{members_of};
ghost use Rattle.theorems.specs.Named.{named_pairs, named_to};
ghost use Rattle.passes.specs.Create.{ends_of};
ghost use Rattle.sets.specs.Members.{members_in};
ghost use Rattle.passes.specs.Machine.{Passing};
ghost use Rattle.walks.specs.Lent.{lent, Leaves};
ghost use Rattle.walks.specs.Walks.{Roomy, Fits, Reduces};

pub mod contract;

use crate::contract::Tally;
use coloring::color;
use lives::create;
use mir::config::Settings;
use mir::record::{Record, records_of};
use mir::refusal::Refusal;
use mir::shape::LOAD_ARGS;
use sets::ReadSet;

// What the reduced list and the lent slices have, what was dropped, and how full the registers got.
#[derive(Clone, Copy)]
pub struct Counts {
    pub statics: u32,
    pub members: u32,
    pub tally: Tally,
    // The most registers that were needed at once.
    pub fullest: u32,
}

// The two walks over a list that passes, with its ends and a set of no members; each renames the registers as it goes.
fn walk(
    list: &[u32],
    table: &[u32],
    settings: Settings,
    out: &mut [u32],
    colours: &mut [u32],
    ends: &mut [u32],
    read: &mut ReadSet<'_>,
) -> Counts
    requires passing { Passing settings list.now table.now }
    requires created { ends.old ≡ over (ends_of list.now) ends.old }
    requires fits { Fits settings list.now table.now (length out.old) (length colours.old) (length ends.old) (length read.old.words.now) }
    requires empty { members_in read.old ≡ [] }
    ensures same_reference { read.new.words.ghost_name ≡ read.old.words.ghost_name }
    ensures reduces { Reduces settings list.now table.now (lent out.old colours.old ends.old read.old.words.now) (lent out.new colours.new ends.new read.new.words.now) result }
{
    let filled = color(list, table, settings, colours, ends, read);
    let tally = contract::contract(list, settings, colours, ends, read, out);
    Counts {
        statics: filled.statics as u32,
        members: read.len() as u32,
        tally,
        fullest: filled.fullest,
    }
}

// The walks, with an index of the read set that has so many heads, and so many links with them: two for each member.
// Kept out of its caller's frame, or a short list would take the stack of a long one.
#[inline(never)]
fn reduce_in<const HEADS: usize, const LINKS: usize>(
    list: &[u32],
    table: &[u32],
    settings: Settings,
    out: &mut [u32],
    colours: &mut [u32],
    ends: &mut [u32],
    set: &mut [u32],
) -> Counts
    requires passing { Passing settings list.now table.now }
    requires created { ends.old ≡ over (ends_of list.now) ends.old }
    requires fits { Fits settings list.now table.now (length out.old) (length colours.old) (length ends.old) (length set.old) }
    requires heads { 0 < HEADS }
    requires links { HEADS + length set.old ≤ LINKS }
    requires few { LINKS ≤ 16777216 }
    ensures { Reduces settings list.now table.now (lent out.old colours.old ends.old set.old) (lent out.new colours.new ends.new set.new) result }
{
    let mut low = [0; LINKS];
    let mut high = [0; LINKS];
    let mut read = ReadSet::new(set, HEADS, &mut low, &mut high);
    walk(list, table, settings, out, colours, ends, &mut read)
}

// The longest sets that the first two sizes of the index are for: those of a list of 512 records that names as many pairs, and of 4,096
// with half as many.
const SHORT: usize = 3_072;

const MIDDLE: usize = 20_480;

// The walks, with an index for a set so long.
fn reduce_sized(
    list: &[u32],
    table: &[u32],
    settings: Settings,
    out: &mut [u32],
    colours: &mut [u32],
    ends: &mut [u32],
    set: &mut [u32],
) -> Counts
    requires passing { Passing settings list.now table.now }
    requires created { ends.old ≡ over (ends_of list.now) ends.old }
    requires fits { Fits settings list.now table.now (length out.old) (length colours.old) (length ends.old) (length set.old) }
    requires few { length set.old ≤ 327680 }
    ensures { Reduces settings list.now table.now (lent out.old colours.old ends.old set.old) (lent out.new colours.new ends.new set.new) result }
{
    let words = set.len();
    if words <= SHORT {
        reduce_in::<1_024, 4_096>(list, table, settings, out, colours, ends, set)
    } else if words <= MIDDLE {
        reduce_in::<4_096, 24_576>(list, table, settings, out, colours, ends, set)
    } else {
        reduce_in::<32_768, 360_448>(list, table, settings, out, colours, ends, set)
    }
}

// How many pairs of the table a record names.
fn named_pairs(rec: &Record) -> u32
    ensures { result ≡ named_pairs rec.now }
{
    if rec[0] == LOAD_ARGS { rec[2] } else { 0 }
}

// And those of a list.
fn all_named(list: &[u32]) -> usize
    requires { length list.now ≤ 524288 }
    ensures pairs { result ≡ named_to list.now (records list.now) }
    ensures few { result ≤ 65536 * 2 ^ 32 }
{
    let mut pairs = 0;
    for rec in records_of(list) {
        pairs += named_pairs(rec) as usize;
    }
    pairs
}

// How many words of the set the members of a list that passes may need: two members for each record, and the pairs of the table that it
// names, which are counted only where the index would be of a larger size for the whole table.
fn set_words(list: &[u32], table: &[u32]) -> usize
    requires { well_sized (length list.now) (length table.now) ≡ true }
    ensures most { result ≤ length list.now / 8 * 4 + length table.now }
    ensures members { (s : Settings) → Passing s list.now table.now → length (members_of s list.now table.now) * 2 ≤ result }
{
    let least = list.len() / 8 * 4;
    let most = least + table.len();
    if most <= SHORT || MIDDLE < least {
        return most;
    }
    most.min(least + all_named(list) * 2)
}

// A list that passes questions 1 to 4 is asked the others and reduced, with the read set in the part of its slice that the list's members
// may need.
pub fn reduce(
    list: &[u32],
    table: &[u32],
    settings: Settings,
    out: &mut [u32],
    colours: &mut [u32],
    ends: &mut [u32],
    set: &mut [u32],
) -> Result<Counts, Refusal>
    requires started { start_refusal true settings (length list.now) (length table.now) ≡ verdict.Passed }
    requires roomy { Roomy (length list.now) (length table.now) (length out.old) (length colours.old) (length ends.old) (length set.old) }
    ensures { Leaves (list_refusal settings.count_regs list.now table.now) settings list.now table.now (lent out.old colours.old ends.old set.old) (lent out.new colours.new ends.new set.new) result }
{
    create(list, table, settings.count_regs, ends)?;
    let words = set_words(list, table);
    Ok(reduce_sized(list, table, settings, out, colours, ends, &mut set[..words]))
}
