// The last walk (document 01, section 4): the records that are kept, in colours.
ghost use Rattle.std.specs.Prelude.{ℕ, ◌+◌, ◌*◌, ◌<◌, ◌≤◌, ◌%◌, true, cond, ◌&&◌, ◌||◌, List, map, ◌≡◌, length, get_or, drop};
ghost use Rattle.std.proofs.lemmas.List.Edits.{sets};
ghost use Rattle.mir.specs.Answers.{over};
ghost use Rattle.sets.specs.Members.{members_in};
ghost use Rattle.walks.specs.Walks.{Colored, Contracted, MayTurn, Turned, Short, dest_words, rewritten, outcome_in, tallied, put_if};
ghost use Rattle.mir.specs.Questions.{partner_fits};
ghost use Rattle.mir.specs.Records.{is_gen, word_at};
ghost use Rattle.mir.specs.Shapes.{any, dests, shape_for};
ghost use Rattle.passes.specs.Color.{source_word, is_member};
ghost use Rattle.passes.specs.Color as color;
ghost use Rattle.passes.specs.Contract.{is_beyond, is_kept, outcome_of};
ghost use Rattle.passes.specs.declared.alloc.Outcome.TheVariants as outcomes;

use coloring::{FOUND, deallocate, loc_of, was_found};
use colours::allocs::partner;
use lives::by_kind;
use mir::config::Settings;
use mir::record::{Record, records_of};
use mir::rename::{Renaming, count_static};
use mir::shape::{Dests, LOAD, LOAD_COMPLEX, MOV, NOP, SAVE, SAVE_COMPLEX, dests_of, shape_of};
use passes::alloc::Outcome;
use passes::symbol::Loc;
use sets::ReadSet;

// A destination in colours: the colour of its static, which is `next`.
#[inline(always)]
fn dest_word(w: u32, next: usize, colours: &[u32]) -> u32
    requires { next < length colours.now }
    ensures { result ≡ cond (is_gen w) (get_or colours.now next 0) w }
{
    if w < 256 { colours[next] } else { w }
}

// The destinations of a record in colours, where its words were copied to; y has the static after x's (mir/rename.rt has why it is
// counted here).
#[inline(always)]
fn rewrite_dests(kind: u32, rec: &Record, next: usize, colours: &[u32], out: &mut [u32])
    requires kind_is { kind ≡ word_at rec.now 0 }
    requires colours_room { next + 2 ≤ length colours.now }
    requires copied { out.old ≡ rec.now }
    ensures { out.new ≡ sets rec.now (shape_for rec.now).regs (dest_words (dests rec.now) next colours.now) }
{
    let s = shape_of(kind);
    let p = s.regs;
    match dests_of(kind, rec) {
        Dests::Nothing => {}
        Dests::One(x) => {
            out[p] = dest_word(x, next, colours);
        }
        Dests::Two(x, y) => {
            out[p] = dest_word(x, next, colours);
            let after = next + (count_static(x) as usize);
            out[p + 1] = dest_word(y, after, colours);
        }
    }
}

// Words in colours, each where it stood.
#[inline(always)]
fn recolour(words: &mut [u32], renaming: &Renaming, colours: &[u32])
    requires { renaming.now.statics ≤ length colours.now }
    ensures { words.new ≡ map (source_word renaming.now.regs colours.now) words.old }
{
    for w in words.iter_mut() {
        *w = deallocate(renaming, *w, colours);
    }
}

// A record in colours, in place: words that are written singly and then copied on would be waited for.
#[inline(always)]
fn rewrite(kind: u32, rec: &Record, renaming: &Renaming, colours: &[u32], out: &mut [u32])
    requires kind_is { kind ≡ word_at rec.now 0 }
    requires colours_room { renaming.now.statics + 2 ≤ length colours.now }
    requires out_room { length out.old ≡ 8 }
    ensures { out.new ≡ rewritten renaming.now.regs renaming.now.statics colours.now rec.now }
{
    let s = shape_of(kind);
    let from = s.regs + s.dsts;
    out.copy_from_slice(rec);
    rewrite_dests(kind, rec, renaming.statics, colours, out);
    recolour(&mut out[from..from + s.srcs], renaming, colours);
}

// Whether nobody looks at a cell after the run.
fn is_beyond(fixed: u64, l: Loc) -> bool
    ensures { result ≡ is_beyond fixed l }
{
    l.space == 0 && fixed <= u64::from(l.index)
}

// Whether either half of a location is a member; `x` is the first half.
fn contains_either(x: Loc, set: &ReadSet<'_>) -> bool
    requires index_lt_any { x.index < any }
    ensures { result ≡ (is_member x (members_in set.now) || is_member (color.partner x) (members_in set.now)) }
{
    set.contains(x) || set.contains(partner(x))
}

// A record that goes as `kind` where nothing reads it, and stays otherwise.
fn drop_if(drop: bool, kind: Outcome) -> Outcome
    ensures { result ≡ cond drop kind outcomes.Kept }
{
    if drop { kind } else { Outcome::Kept }
}

// What becomes of a record, told before it is written: a Mov goes if its two words have one colour.
#[inline(always)]
fn outcome_of(
    kind: u32,
    rec: &Record,
    renaming: &Renaming,
    fixed: u64,
    colours: &[u32],
    ends: &[u32],
    set: &ReadSet<'_>,
) -> Outcome
    requires kind_is { kind ≡ word_at rec.now 0 }
    requires partner_fits { partner_fits rec.now ≡ true }
    requires colours_room { renaming.now.statics + 2 ≤ length colours.now }
    requires ends_room { renaming.now.statics + 2 ≤ length ends.now }
    ensures { result ≡ outcome_in fixed (members_in set.now) renaming.now.regs renaming.now.statics colours.now ends.now rec.now }
{
    match kind {
        NOP => Outcome::Nop,
        LOAD | LOAD_COMPLEX => drop_if(was_found(kind, rec, renaming.statics, ends), Outcome::Load),
        MOV => {
            let to = dest_word(rec[1], renaming.statics, colours);
            let from = deallocate(renaming, rec[2], colours);
            drop_if(to == from, Outcome::Move)
        }
        SAVE => {
            let l = loc_of(kind, rec);
            drop_if(is_beyond(fixed, l) && !set.contains(l), Outcome::Save)
        }
        SAVE_COMPLEX => {
            let l = loc_of(kind, rec);
            drop_if(
                is_beyond(fixed, l) && !contains_either(l, set),
                Outcome::Save,
            )
        }
        _ => Outcome::Kept,
    }
}

// The marks at the ends of statics are taken away.
fn unmark(ends: &mut [u32])
    ensures { ends.new ≡ map (λ end. end % 65536) ends.old }
{
    for end in ends.iter_mut() {
        *end %= FOUND;
    }
}

// A record in colours at the start of a slice.
#[inline(always)]
fn push(kind: u32, rec: &Record, renaming: &Renaming, colours: &[u32], out: &mut [u32])
    requires kind_is { kind ≡ word_at rec.now 0 }
    requires colours_room { renaming.now.statics + 2 ≤ length colours.now }
    requires out_room { 8 ≤ length out.old }
    ensures { out.new ≡ over (rewritten renaming.now.regs renaming.now.statics colours.now rec.now) out.old }
{
    rewrite(kind, rec, renaming, colours, &mut out[..8]);
}

// A record that is kept goes into the output's part from the next record on: the form that the rules name, of the slice that C lends.
#[inline(always)]
fn keep(
    outcome: Outcome,
    kind: u32,
    rec: &Record,
    renaming: &Renaming,
    colours: &[u32],
    at: usize,
    out: &mut [u32],
)
    requires kind_is { kind ≡ word_at rec.now 0 }
    requires colours_room { renaming.now.statics + 2 ≤ length colours.now }
    requires out_room { at + 8 ≤ length out.old }
    ensures { out.new ≡ put_if (is_kept outcome) at (rewritten renaming.now.regs renaming.now.statics colours.now rec.now) out.old }
{
    match outcome {
        Outcome::Kept => push(kind, rec, renaming, colours, &mut out[at..]),
        Outcome::Nop | Outcome::Load | Outcome::Move | Outcome::Save => {}
    }
}

// How many records were kept, and how many were dropped as what.
#[derive(Clone, Copy, Default)]
pub struct Tally {
    pub records: u32,
    pub nops: u32,
    pub loads: u32,
    pub moves: u32,
    pub saves: u32,
}

impl Tally {
    // One record more.
    fn add(&mut self, outcome: Outcome)
        requires { Short self.old any }
        ensures { self.new ≡ tallied outcome self.old }
    {
        match outcome {
            Outcome::Kept => self.records += 1,
            Outcome::Nop => self.nops += 1,
            Outcome::Load => self.loads += 1,
            Outcome::Move => self.moves += 1,
            Outcome::Save => self.saves += 1,
        }
    }
}

// One turn of the walk: what the record is rewritten to goes out, if it is kept, after the records that were; then the registers after
// it, and the ends of its statics without marks.
#[inline(always)]
fn contract_turn(
    kind: u32,
    rec: &Record,
    renaming: &mut Renaming,
    fixed: u64,
    colours: &[u32],
    ends: &mut [u32],
    set: &ReadSet<'_>,
    tally: &mut Tally,
    out: &mut [u32],
)
    requires kind_is { kind ≡ word_at rec.now 0 }
    requires may_turn { MayTurn rec.now renaming.old (length colours.now) (length ends.old) tally.old (length out.old) }
    ensures { Turned fixed (members_in set.now) colours.now rec.now renaming.old renaming.new ends.old ends.new tally.old tally.new out.old out.new }
{
    let outcome = outcome_of(kind, rec, renaming, fixed, colours, ends, set);
    keep(
        outcome,
        kind,
        rec,
        renaming,
        colours,
        (tally.records as usize) * 8,
        out,
    );
    tally.add(outcome);
    let first = renaming.statics;
    renaming.pass(kind, rec);
    unmark(&mut ends[first..renaming.statics]);
}

// The turn of the record's kind.
fn contract_by_kind(
    rec: &Record,
    renaming: &mut Renaming,
    fixed: u64,
    colours: &[u32],
    ends: &mut [u32],
    set: &ReadSet<'_>,
    tally: &mut Tally,
    out: &mut [u32],
)
    requires { MayTurn rec.now renaming.old (length colours.now) (length ends.old) tally.old (length out.old) }
    ensures { Turned fixed (members_in set.now) colours.now rec.now renaming.old renaming.new ends.old ends.new tally.old tally.new out.old out.new }
{
    by_kind!(
        rec,
        contract_turn(rec, renaming, fixed, colours, ends, set, tally, out)
    )
}

// The reduced list, from the colours, the marked ends and the read set; the ends lose their marks.
pub fn contract(
    list: &[u32],
    settings: Settings,
    colours: &[u32],
    ends: &mut [u32],
    set: &ReadSet<'_>,
    out: &mut [u32],
) -> Tally
    requires colored { (table : List ℕ) × Colored settings list.now table colours.now ends.old (members_in set.now) }
    requires out_room { length list.now ≤ length out.old }
    ensures { (table : List ℕ) → Colored settings list.now table colours.now ends.old (members_in set.now) → Contracted settings list.now table result ends.old ends.new out.old out.new }
{
    let fixed = settings.fixed();
    let mut renaming = Renaming::new();
    let mut tally = Tally::default();
    for rec in records_of(list) {
        contract_by_kind(
            rec,
            &mut renaming,
            fixed,
            colours,
            ends,
            set,
            &mut tally,
            out,
        );
    }
    tally
}
