// The questions that are asked of the lengths and of each record (document 01, section 7); crate questions asks them all.

ghost use Rattle.std.specs.Prelude.{◌+◌, ◌≤◌, ◌<◌, cond, true, [], ◌∷◌, ◌≡◌, eqb, length};
ghost use Rattle.mir.specs.Answers.{no_in, verdict_in};
ghost use Rattle.std.specs.List.{list_all};
ghost use Rattle.mir.specs.Folds.{first_no};
ghost use Rattle.mir.specs.Questions.{count_refusal, lengths_refusal, well_sized, words_fit, pairs_fit, fields_fit, gen_fits, gens_fit, partner_fits, named, sources_named, since, sources_since, shape_no, record_no, sizes_refusal};
ghost use Rattle.mir.specs.Records.{word_at};
ghost use Rattle.mir.specs.Inner.{source_passes};
ghost use Rattle.mir.specs.Shapes.{branch_if, dests};

use crate::config::MAX_REGS;
use crate::record::Record;
use crate::refusal::{Question, Refusal};
use crate::rename::static_of;
use crate::shape::{
    BRANCH_IF, Dests, LOAD_ARGS, LOAD_COMPLEX, SAVE_COMPLEX, dests_of, registers_of, shape_of,
    sources_of,
};

// Question 3, of the lengths.
pub fn well_sized(list: usize, table: usize) -> bool
    ensures { result ≡ well_sized list table }
{
    list % 8 == 0 && list <= 524_288 && table % 2 == 0 && table <= 65_536
}

// Question 6: no word is above the largest that its field may be.
#[inline(always)]
fn words_fit(rec: &Record, most: [u32; 8]) -> bool
    ensures { result ≡ words_fit rec.now most }
{
    let mut fit = true;
    // Without a return from the loop the eight words are compared at once.
    for p in 0..8 {
        fit &= rec[p] <= most[p];
    }
    fit
}

// Question 6: the pairs that a LoadArgs names are in the table, and each is of a space.
fn pairs_fit(table: &[u32], first: u32, count: u32) -> bool
    ensures { result ≡ pairs_fit table.now first count }
{
    let from = first as usize;
    let n = count as usize;
    if table.len() / 2 < from + n {
        return false;
    }
    for j in 0..n {
        if 2 < table[(from + j) * 2] {
            return false;
        }
    }
    true
}

// Question 6, whole.
#[inline(always)]
fn fields_fit(kind: u32, rec: &Record, table: &[u32]) -> bool
    requires { kind ≡ word_at rec.now 0 }
    ensures { result ≡ fields_fit table.now rec.now }
{
    let s = shape_of(kind);
    let most = s.most;
    if !words_fit(rec, most) {
        return false;
    }
    if kind == LOAD_ARGS {
        pairs_fit(table, rec[1], rec[2])
    } else {
        true
    }
}

// Question 7, of one register word.
fn gen_fits(count_regs: u32, w: u32) -> bool
    ensures { result ≡ gen_fits count_regs w }
{
    if w < 256 { w < count_regs } else { true }
}

// Question 7, of register words: apart from a record's shape, since the chain's proof is found of a lent slice alone.
fn all_gens_fit(words: &[u32], count_regs: u32) -> bool
    ensures { result ≡ list_all (gen_fits count_regs) words.now }
{
    words.iter().all(|&w| gen_fits(count_regs, w))
}

// Question 7.
fn gens_fit(rec: &Record, count_regs: u32) -> bool
    ensures { result ≡ gens_fit count_regs rec.now }
{
    all_gens_fit(registers_of(rec), count_regs)
}

// Question 8.
#[inline(always)]
fn partner_fits(kind: u32, rec: &Record) -> bool
    requires { kind ≡ word_at rec.now 0 }
    ensures { result ≡ partner_fits rec.now }
{
    match kind {
        LOAD_COMPLEX | SAVE_COMPLEX => rec[4] < u32::MAX,
        _ => true,
    }
}

// Questions 5 to 7.
pub fn check_shape(rec: &Record, table: &[u32], count_regs: u32) -> Result<(), Question>
    ensures { no_in result ≡ shape_no table.now count_regs rec.now }
{
    if 20 < rec[0] {
        return Err(Question::Kind);
    }
    if !fields_fit(rec[0], rec, table) {
        return Err(Question::Fields);
    }
    if !gens_fit(rec, count_regs) {
        return Err(Question::Registers);
    }
    Ok(())
}

// Question 9, of one source word.
fn check_named(regs: &[Option<u32>; MAX_REGS], w: u32) -> Result<(), Question>
    ensures { no_in result ≡ first_no ((9, named regs.now w) ∷ []) }
{
    if 256 <= w {
        return Ok(());
    }
    let Some(_) = static_of(regs, w) else {
        return Err(Question::Named);
    };
    Ok(())
}

// Question 15, of one source word: its static is none of the `past` that were written before a BranchIf.
fn is_since(regs: &[Option<u32>; MAX_REGS], past: usize, w: u32) -> bool
    ensures { result ≡ since past regs.now w }
{
    let Some(s) = static_of(regs, w) else {
        return true;
    };
    past <= s as usize
}

// Question 9, of a record's source words.
fn check_all_named(regs: &[Option<u32>; MAX_REGS], words: &[u32]) -> Result<(), Question>
    ensures { no_in result ≡ first_no ((9, list_all (named regs.now) words.now) ∷ []) }
{
    for &w in words {
        check_named(regs, w)?;
    }
    Ok(())
}

// Question 15, of a record's source words.
fn all_since(regs: &[Option<u32>; MAX_REGS], past: usize, words: &[u32]) -> bool
    ensures { result ≡ list_all (since past regs.now) words.now }
{
    words.iter().all(|&w| is_since(regs, past, w))
}

// Questions 9 and 15: every source is asked 9 before any is asked 15.
fn check_sources(regs: &[Option<u32>; MAX_REGS], past: usize, rec: &Record) -> Result<(), Question>
    ensures { no_in result ≡ first_no ((9, sources_named regs.now rec.now) ∷ (15, sources_since past regs.now rec.now) ∷ []) }
{
    let words = sources_of(rec[0], rec);
    check_all_named(regs, words)?;
    if !all_since(regs, past, words) {
        return Err(Question::Since);
    }
    Ok(())
}

// Questions 7, 9 and 15, of one source word.
#[inline(always)]
fn source_passes(count_regs: u32, regs: &[Option<u32>; MAX_REGS], past: usize, w: u32) -> bool
    ensures { result ≡ source_passes count_regs regs.now past w }
{
    if 256 <= w {
        return true;
    }
    let Some(s) = static_of(regs, w) else {
        return false;
    };
    w < count_regs && past <= s as usize
}

// Questions 7, 9 and 15, of a record's source words.
#[inline(always)]
fn all_pass(count_regs: u32, regs: &[Option<u32>; MAX_REGS], past: usize, words: &[u32]) -> bool
    ensures { result ≡ list_all (source_passes count_regs regs.now past) words.now }
{
    words
        .iter()
        .all(|&w| source_passes(count_regs, regs, past, w))
}

// Question 7, of a record's destinations.
#[inline(always)]
fn dests_fit(kind: u32, rec: &Record, count_regs: u32) -> bool
    requires { kind ≡ word_at rec.now 0 }
    ensures { result ≡ list_all (gen_fits count_regs) (dests rec.now) }
{
    match dests_of(kind, rec) {
        Dests::Nothing => true,
        Dests::One(x) => gen_fits(count_regs, x),
        Dests::Two(x, y) => gen_fits(count_regs, x) && gen_fits(count_regs, y),
    }
}

// Whether a record passes questions 5 to 9 and 15: most do, and are asked all at once, without looking for the first no.
#[inline(always)]
fn passes(
    kind: u32,
    rec: &Record,
    table: &[u32],
    count_regs: u32,
    regs: &[Option<u32>; MAX_REGS],
    past: usize,
) -> bool
    requires { kind ≡ word_at rec.now 0 }
    ensures { result ≡ eqb (record_no table.now count_regs regs.now past rec.now) 0 }
{
    if 20 < kind {
        return false;
    }
    if !fields_fit(kind, rec, table) {
        return false;
    }
    if !partner_fits(kind, rec) {
        return false;
    }
    if !dests_fit(kind, rec, count_regs) {
        return false;
    }
    all_pass(count_regs, regs, past, sources_of(kind, rec))
}

// The first of questions 5 to 9 and 15 that a record answers with no. Kept out of the walk: it is asked once.
#[cold]
#[inline(never)]
fn find_no(
    rec: &Record,
    table: &[u32],
    count_regs: u32,
    regs: &[Option<u32>; MAX_REGS],
    past: usize,
) -> Result<(), Question>
    ensures { no_in result ≡ record_no table.now count_regs regs.now past rec.now }
{
    check_shape(rec, table, count_regs)?;
    if !partner_fits(rec[0], rec) {
        return Err(Question::Partner);
    }
    check_sources(regs, past, rec)
}

// Questions 5 to 9 and 15, of a record whose kind is in hand.
#[inline(always)]
pub fn check_record(
    kind: u32,
    rec: &Record,
    table: &[u32],
    count_regs: u32,
    regs: &[Option<u32>; MAX_REGS],
    past: usize,
) -> Result<(), Question>
    requires { kind ≡ word_at rec.now 0 }
    ensures { no_in result ≡ record_no table.now count_regs regs.now past rec.now }
{
    if passes(kind, rec, table, count_regs, regs, past) {
        return Ok(());
    }
    find_no(rec, table, count_regs, regs, past)
}

// Question 1.
pub fn check_count(count_regs: u32) -> Result<(), Refusal>
    ensures { verdict_in result ≡ count_refusal count_regs }
{
    if MAX_REGS < count_regs as usize {
        return Err(Question::FewRegisters.of_list());
    }
    Ok(())
}

// Questions 3 and 4; `room` is the answer to question 4.
pub fn check_lengths(list: usize, table: usize, room: bool) -> Result<(), Refusal>
    ensures { verdict_in result ≡ lengths_refusal room list table }
{
    if !well_sized(list, table) {
        return Err(Question::Lengths.of_list());
    }
    if !room {
        return Err(Question::Room.of_list());
    }
    Ok(())
}

// Questions 1, 3 and 4, which come before any record of a list that is surveyed.
pub fn check_sizes(list: usize, table: usize, count_regs: u32, room: bool) -> Result<(), Refusal>
    ensures { verdict_in result ≡ sizes_refusal room count_regs list table }
{
    check_count(count_regs)?;
    check_lengths(list, table, room)
}

// How many statics were written before the last BranchIf, once a record has been passed; `statics` were there before it.
#[inline(always)]
pub fn past_after(kind: u32, statics: usize, past: usize) -> usize
    ensures { result ≡ cond (eqb kind branch_if) statics past }
{
    if kind == BRANCH_IF { statics } else { past }
}
