// Question 16 (document 02, request 10): each Branch and BranchIf has a Label with its number somewhere in the list.
// The list is not walked for each branch, but in rounds, mostly one. The numbers of the branches go into a table, up to the first
// that finds no place; a walk over the list takes out the number of each Label; a branch whose number is left is bad.
// A number has one of 512 slots, and a slot has eight places, so up to eight numbers that share a slot fit into one round.
ghost use Rattle.std.specs.Prelude.{◌+◌, ◌*◌, ◌<◌, ◌≤◌, ◌≡◌, eqb, length, replicate, unwrap_or, IfSome};
ghost use Rattle.std.specs.List.{position};
ghost use Rattle.questions.specs.Table.{slot_of, holds, Empty, Room, Without};
ghost use Rattle.questions.specs.Table.{target_of, is_left, Put, Collected};
ghost use Rattle.mir.specs.Answers.{verdict_in};
ghost use Rattle.mir.specs.Branches.{is_branch, is_label};
ghost use Rattle.mir.specs.Questions.{has_label, branch_refusal};
ghost use Rattle.mir.specs.Records.{records};

use mir::record::{Record, records_of};
use mir::refusal::{Question, Refusal};
use mir::shape::{BRANCH, BRANCH_IF, LABEL};

// How many numbers the table has room for, eight to a slot: words that are lent one function to the next, where a proof forgets the
// length of an array behind `&mut`. A number is in the table if it stands at a place of its slot.
const PLACES: usize = 4_096;

// The slot of a number: the top nine bits of a product of 32 bits, by which numbers that follow each other lie far apart.
fn slot(number: u32) -> usize
    ensures is { result ≡ slot_of number }
    ensures below { result < 512 }
{
    (u64::from(number) * 2_654_435_761 / 8_388_608 % 512) as usize
}

// What an empty place of a slot holds: a number that belongs to another slot.
fn away(s: usize) -> u32
    ensures { slot_of result ≡ s → ⊥ }
{
    if s == 0 { 1 } else { 0 }
}

// Empties a table of zeros: 0 belongs to slot 0, so the places of that slot get another number.
fn empty(table: &mut [u32])
    requires { table.old ≡ replicate 4096 0 }
    ensures { Empty table.new }
{
    table[..8].fill(away(0));
}

// Whether a number is in the table.
fn is_in(table: &[u32], number: u32) -> bool
    requires { length table.now ≡ 4096 }
    ensures { result ≡ holds table.now number }
{
    let first = slot(number) * 8;
    for k in 0..8 {
        if table[first + k] == number {
            return true;
        }
    }
    false
}

// The first empty place of a slot.
fn find_room(table: &[u32], s: usize) -> Option<usize>
    requires table_len { length table.now ≡ 4096 }
    requires s_bound { s < 512 }
    ensures room { Room table.now s (unwrap_or result 4096) }
    ensures below { IfSome result (λ p. p < 4096) }
{
    let first = s * 8;
    for k in 0..8 {
        if slot(table[first + k]) != s {
            return Some(first + k);
        }
    }
    None
}

// The number of the Label that a record goes to, if it is a branch.
fn target_of(rec: &Record) -> Option<u32>
    ensures { result ≡ target_of rec.now }
{
    match rec[0] {
        BRANCH => Some(rec[1]),
        BRANCH_IF => Some(rec[2]),
        _ => None,
    }
}

// The first branch: a list without branches needs no table.
fn first_branch(records: &[Record]) -> Option<usize>
    ensures { result ≡ position is_branch records.now }
{
    records.iter().position(|rec| target_of(rec).is_some())
}

// Puts the number of a record, if it is a branch, into the table. Says no if other numbers have all its places.
fn put_branch(rec: &Record, table: &mut [u32]) -> bool
    requires { length table.old ≡ 4096 }
    ensures { Put rec.now table.old table.new result }
{
    let Some(number) = target_of(rec) else {
        return true;
    };
    if is_in(table, number) {
        return true;
    }
    let Some(p) = find_room(table, slot(number)) else {
        return false;
    };
    table[p] = number;
    true
}

// Puts the numbers of the branches from record `from` on into the table, up to the first that finds no place. Gives where this round
// ends: its index, or the number of records, where no other round begins; a bound, and no option, since the caller goes on from it.
fn collect(list: &[u32], from: usize, table: &mut [u32]) -> usize
    requires table_len { length table.old ≡ 4096 }
    requires from_bound { from < records list.now }
    requires empty { Empty table.old }
    ensures { Collected list.now from result table.new }
{
    let records = records_of(list);
    for (k, rec) in records[from..].iter().enumerate() {
        if !put_branch(rec, table) {
            return from + k;
        }
    }
    records.len()
}

// Takes a number out of the table: from each of its places that holds it.
fn take_out(number: u32, table: &mut [u32])
    requires { length table.old ≡ 4096 }
    ensures { Without (eqb number) table.old table.new }
{
    let s = slot(number);
    for k in 0..8 {
        let p = s * 8 + k;
        if table[p] == number {
            table[p] = away(s);
        }
    }
}

// Takes the number of a record, if it is a Label, out of the table.
fn strike_label(rec: &Record, table: &mut [u32])
    requires { length table.old ≡ 4096 }
    ensures { Without (λ name. is_label name rec.now) table.old table.new }
{
    if rec[0] == LABEL {
        take_out(rec[1], table);
    }
}

// Takes the number of each Label out of the table.
fn strike(list: &[u32], table: &mut [u32])
    requires { length table.old ≡ 4096 }
    ensures { Without (has_label list.now) table.old table.new }
{
    for rec in records_of(list) {
        strike_label(rec, table);
    }
}

// Whether a record is a branch whose number is in the table.
fn is_left(rec: &Record, table: &[u32; PLACES]) -> bool
    ensures { result ≡ is_left table.now rec.now }
{
    let Some(number) = target_of(rec) else {
        return false;
    };
    is_in(table, number)
}

// The first branch whose number is in the table.
fn first_left(records: &[Record], table: &[u32; PLACES]) -> Option<usize>
    ensures { result ≡ position (is_left table.now) records.now }
{
    records.iter().position(|rec| is_left(rec, table))
}

// Question 16: the first branch without a Label of its number.
pub fn check_branches(list: &[u32]) -> Result<(), Refusal>
    requires { length list.now ≤ 524288 }
    ensures { verdict_in result ≡ branch_refusal list.now }
{
    let records = records_of(list);
    let n = records.len();
    let Some(branch) = first_branch(records) else {
        return Ok(());
    };
    let mut from = branch;
    // Not a `for`: a round ends where `collect` stopped.
    while from < n {
        let mut table = [0u32; PLACES];
        empty(&mut table);
        let until = collect(list, from, &mut table);
        strike(list, &mut table);
        if let Some(k) = first_left(&records[from..until], &table) {
            return Err(Question::Labels.of_record((from + k) as u32));
        }
        from = until;
    }
    Ok(())
}
