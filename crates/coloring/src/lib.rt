// The second walk (document 01, section 3): each static's colour, and the read set.
#![tactic(auto)]

ghost use Rattle.std.specs.Prelude.{ℕ, ◌+◌, ◌*◌, ◌/◌, ◌<◌, ◌≤◌, true, cond, ◌&&◌, List, [], ◌∷◌, leb, ◌≡◌, length, get_or};
ghost use Rattle.mir.specs.Answers.{over};
ghost use Rattle.colours.specs.Colours.{nothing, held_in, allocs_in, Stands, sources_used};
ghost use Rattle.colours.specs.Masks.{Masked, Expired};
ghost use Rattle.sets.specs.Members.{members_in, SetHolds};
ghost use Rattle.coloring.specs.Walk.{MayTurn, Turned, state};
ghost use Rattle.coloring.specs.Coloring.{slices_in, SlicesAre, dest_step, dest_steps, dest_needed, most_needed, ReadyFor, Ready, Coloured, source_words, wanted_by, record_step, was_found, reads_of, marked_ends};
ghost use Rattle.mir.specs.Questions.{fields_fit, partner_fits};
ghost use Rattle.mir.specs.Records.{is_gen, max_regs, records, record_at, word_at};
ghost use Rattle.mir.specs.Shapes.{any, dests};
ghost use Rattle.mir.specs.declared.shape.Action.TheVariants as act;
ghost use Rattle.passes.specs.declared.alloc.Alloc.{Alloc};
ghost use Rattle.passes.specs.Color.{joined, loc_of, source_word, held_by, want_x, want_y, wanted};
ghost use Rattle.passes.specs.Color as color;
ghost use Rattle.passes.specs.Contract.{colours_of, members_of, fullest_of};
ghost use Rattle.passes.specs.Create.{ends_of};
ghost use Rattle.passes.specs.Machine.{Passing};

use colours::allocs::{Allocs, partner};
use colours::pool::{NOTHING, word_of};
use lives::by_kind;
use mir::config::Settings;
use mir::record::{Record, records_of};
use mir::rename::{Renaming, count_static, static_of};
use mir::shape::{Action, Dests, dests_of, shape_of, sources_of};
use passes::alloc::Choice;
use passes::symbol::Loc;
use sets::ReadSet;

// Added to the end of a static whose location was found, until the last walk has seen it. An end is an index, below this. The
// mark stands in the lent word, since nothing else is lent that has a place for each static.
pub const FOUND: u32 = 65_536;

// A register word in colours: the colour of the static that a Gen source holds, or 0, as the definitions have it, where it holds none.
#[inline(always)]
pub fn deallocate(renaming: &Renaming, w: u32, colours: &[u32]) -> u32
    requires { renaming.now.statics ≤ length colours.now }
    ensures { result ≡ source_word renaming.now.regs colours.now w }
{
    if 256 <= w {
        return w;
    }
    let Some(s) = static_of(&renaming.regs, w) else {
        return 0;
    };
    colours[s as usize]
}

// Source `j` of a record in colours, or 0 where it has none, as the definitions have it: nothing is made of it then.
#[inline(always)]
fn source_at(renaming: &Renaming, kind: u32, rec: &Record, j: usize, colours: &[u32]) -> u32
    requires kind_is { kind ≡ word_at rec.now 0 }
    requires known_in { renaming.now.statics ≤ length colours.now }
    ensures { result ≡ get_or (source_words renaming.now.regs colours.now rec.now) j 0 }
{
    match sources_of(kind, rec).get(j) {
        Some(&w) => deallocate(renaming, w, colours),
        None => 0,
    }
}

// The colours of a record's sources become free at instruction `i`, if their lives end there.
#[inline(always)]
fn expire_sources(
    allocs: &mut Allocs,
    renaming: &Renaming,
    kind: u32,
    rec: &Record,
    i: u32,
    colours: &[u32],
)
    requires kind_is { kind ≡ word_at rec.now 0 }
    requires known_in { renaming.now.statics ≤ length colours.now }
    requires coloured { Coloured max_regs (source_words renaming.now.regs colours.now rec.now) }
    ensures { Expired allocs.old (source_words renaming.now.regs colours.now rec.now) i allocs.new }
{
    for &w in sources_of(kind, rec) {
        allocs.expire(deallocate(renaming, w, colours), i);
    }
}

// The word of the location that a coloured word's colour holds.
#[inline(always)]
fn held_by(allocs: &Allocs, w: u32) -> u64
    requires { w < 256 → w < max_regs }
    ensures { result ≡ cond (is_gen w) (get_or allocs.now.locs w 0) nothing }
{
    if 256 <= w {
        return NOTHING;
    }
    allocs.locs[w as usize]
}

// What x is wanted with, as a word, which is compared with the colours' (`NOTHING`); the first source's colour is `x`.
#[inline(always)]
fn want_x(action: Action, l: Loc, x: u32, allocs: &Allocs) -> u64
    requires space_lt_any { l.space < any }
    requires x_lt_max_regs { 0 < sources_used action → x < 256 → x < max_regs }
    ensures { (n i : ℕ) (all : List Alloc) → Stands n i allocs.now all → held_in result ≡ want_x action l (held_by all x) }
{
    match action {
        Action::Mov => held_by(allocs, x),
        Action::Load | Action::LoadComplex => word_of(l),
        _ => NOTHING,
    }
}

// What y is wanted with.
#[inline(always)]
fn want_y(action: Action, l: Loc) -> u64
    requires space_lt_any { l.space < any }
    requires index_lt_any { action ≡ act.LoadComplex → l.index < any }
    ensures { held_in result ≡ want_y action l }
{
    match action {
        Action::LoadComplex => word_of(partner(l)),
        _ => NOTHING,
    }
}

// A record's location, or its first two words where it has none.
#[inline(always)]
pub fn loc_of(kind: u32, rec: &Record) -> Loc
    requires { kind ≡ word_at rec.now 0 }
    ensures { result ≡ loc_of rec.now }
{
    let s = shape_of(kind);
    let p = s.loc;
    Loc {
        space: rec[p],
        index: rec[p + 1],
    }
}

// One destination: the static `next`, if it is Gen, takes a colour. The pool is never empty on a list that passes. Answers how many
// colours are needed past the record then, and 0 where there was nothing to choose.
fn color_dest(
    allocs: &mut Allocs,
    w: u32,
    want: u64,
    i: u32,
    next: usize,
    colours: &mut [u32],
    ends: &mut [u32],
) -> u32
    requires masked { Masked allocs.old.count i allocs.old.masks (allocs_in allocs.old.lives allocs.old.locs) }
    requires colours_room { next < length colours.old }
    requires ends_room { next < length ends.old }
    requires ready_for { ReadyFor allocs.old.count i next w (held_in want) (slices_in allocs.old colours.old ends.old) }
    ensures slices { SlicesAre allocs.old.count i (dest_step allocs.old.count i next w (held_in want) (slices_in allocs.old colours.old ends.old)) allocs.new colours.new ends.new }
    ensures needed { result ≡ dest_needed allocs.old.count i w (dest_step allocs.old.count i next w (held_in want) (slices_in allocs.old colours.old ends.old)) }
{
    if 256 <= w {
        return 0;
    }
    let end = ends[next];
    match allocs.choose(want) {
        Choice::Found(c) => {
            colours[next] = c;
            ends[next] = end + FOUND;
            allocs.assign(c, end, want, i)
        }
        Choice::Free(c) => {
            colours[next] = c;
            allocs.assign(c, end, want, i)
        }
        Choice::Empty => 0,
    }
}

// The destinations of a record, x before y, which has the static after x's (mir/rename.rt has why it is counted here). Answers the
// most colours that a choice leaves needed.
#[inline(always)]
fn color_dests(
    allocs: &mut Allocs,
    kind: u32,
    rec: &Record,
    hx: u64,
    hy: u64,
    i: u32,
    next: usize,
    colours: &mut [u32],
    ends: &mut [u32],
) -> u32
    requires kind_is { kind ≡ word_at rec.now 0 }
    requires masked { Masked allocs.old.count i allocs.old.masks (allocs_in allocs.old.lives allocs.old.locs) }
    requires colours_room { next + 2 ≤ length colours.old }
    requires ends_room { next + 2 ≤ length ends.old }
    requires ready { Ready allocs.old.count i next (wanted (dests rec.now) (held_in hx) (held_in hy)) (slices_in allocs.old colours.old ends.old) }
    ensures slices { SlicesAre allocs.old.count i (dest_steps allocs.old.count i next (wanted (dests rec.now) (held_in hx) (held_in hy)) (slices_in allocs.old colours.old ends.old)) allocs.new colours.new ends.new }
    ensures most { result ≡ most_needed allocs.old.count i next (wanted (dests rec.now) (held_in hx) (held_in hy)) (slices_in allocs.old colours.old ends.old) }
{
    match dests_of(kind, rec) {
        Dests::Nothing => 0,
        Dests::One(x) => color_dest(allocs, x, hx, i, next, colours, ends),
        Dests::Two(x, y) => {
            let needed = color_dest(allocs, x, hx, i, next, colours, ends);
            let after = next + (count_static(x) as usize);
            needed.max(color_dest(allocs, y, hy, i, after, colours, ends))
        }
    }
}

// One record. Answers the most colours that a choice leaves needed.
#[inline(always)]
fn color_record(
    allocs: &mut Allocs,
    kind: u32,
    rec: &Record,
    renaming: &Renaming,
    i: u32,
    colours: &mut [u32],
    ends: &mut [u32],
) -> u32
    requires kind_is { kind ≡ word_at rec.now 0 }
    requires partner_fits { partner_fits rec.now ≡ true }
    requires space_bound { (loc_of rec.now).space < any }
    requires coloured { Coloured allocs.old.count (source_words renaming.now.regs colours.old rec.now) }
    requires masked { Masked allocs.old.count i allocs.old.masks (allocs_in allocs.old.lives allocs.old.locs) }
    requires colours_room { renaming.now.statics + 2 ≤ length colours.old }
    requires ends_room { renaming.now.statics + 2 ≤ length ends.old }
    requires ready { Ready allocs.old.count i renaming.now.statics (wanted_by renaming.now.regs rec.now (slices_in allocs.old colours.old ends.old)) (slices_in allocs.old colours.old ends.old) }
    ensures slices { SlicesAre allocs.old.count i (record_step allocs.old.count i renaming.now.statics renaming.now.regs rec.now (slices_in allocs.old colours.old ends.old)) allocs.new colours.new ends.new }
    ensures most { result ≡ most_needed allocs.old.count i renaming.now.statics (wanted_by renaming.now.regs rec.now (slices_in allocs.old colours.old ends.old)) (slices_in allocs.old colours.old ends.old) }
{
    let s = shape_of(kind);
    let action = s.action;
    let l = loc_of(kind, rec);
    let x = source_at(renaming, kind, rec, 0, colours);
    let y = source_at(renaming, kind, rec, 1, colours);
    let hx = want_x(action, l, x, allocs);
    let hy = want_y(action, l);
    let most = color_dests(
        allocs,
        kind,
        rec,
        hx,
        hy,
        i,
        renaming.statics,
        colours,
        ends,
    );
    allocs.update(action, l, x, y);
    most
}

// Whether every destination was found; `next` is the record's first static, and y's comes after it, since x's counts only if it is
// marked. It counts at a load.
#[inline(always)]
pub fn was_found(kind: u32, rec: &Record, next: usize, ends: &[u32]) -> bool
    requires kind_is { kind ≡ word_at rec.now 0 }
    requires next_fits { next + 2 ≤ length ends.now }
    ensures { result ≡ was_found (dests rec.now) next ends.now }
{
    match dests_of(kind, rec) {
        Dests::Nothing => true,
        Dests::One(x) => is_marked(x, next, ends),
        Dests::Two(x, y) => is_marked(x, next, ends) && is_marked(y, next + 1, ends),
    }
}

// Whether the static of a Gen register is marked as found.
#[inline(always)]
fn is_marked(w: u32, next: usize, ends: &[u32]) -> bool
    requires { next < length ends.now }
    ensures { result ≡ (is_gen w && leb 65536 (get_or ends.now next 0)) }
{
    w < 256 && FOUND <= ends[next]
}

// Both halves of a location join.
#[tactic(auto, using(sets::proofs::Pairs::set_rules), unfolding(passes::specs::Color::joined))]
fn insert_both(set: &mut ReadSet<'_>, l: Loc)
    requires index_lt_any { l.index < any }
    requires l_in_bounds { length (joined (members_in set.old) (l ∷ color.partner l ∷ [])) * 2 ≤ length set.old.words.now }
    ensures { SetHolds set.new (joined (members_in set.old) (l ∷ color.partner l ∷ [])) set.old }
{
    set.insert(l);
    set.insert(partner(l));
}

// What a record reads joins the set; `next` is its first static. What was found is asked at a load alone.
#[tactic(auto, using(sets::proofs::Pairs::set_rules), unfolding(passes::specs::Color::joined))]
#[inline(always)]
fn read_record(
    kind: u32,
    rec: &Record,
    next: usize,
    ends: &[u32],
    table: &[u32],
    set: &mut ReadSet<'_>,
)
    requires kind_is { kind ≡ word_at rec.now 0 }
    requires fields_fit { fields_fit table.now rec.now ≡ true }
    requires partner_fits { partner_fits rec.now ≡ true }
    requires next_fits { next + 2 ≤ length ends.now }
    requires found_in_bounds { length (joined (members_in set.old) (reads_of table.now rec.now (was_found (dests rec.now) next ends.now))) * 2 ≤ length set.old.words.now }
    ensures { SetHolds set.new (joined (members_in set.old) (reads_of table.now rec.now (was_found (dests rec.now) next ends.now))) set.old }
{
    let s = shape_of(kind);
    match s.action {
        Action::Load => {
            if !was_found(kind, rec, next, ends) {
                set.insert(loc_of(kind, rec));
            }
        }
        Action::LoadComplex => {
            if !was_found(kind, rec, next, ends) {
                insert_both(set, loc_of(kind, rec));
            }
        }
        Action::LoadArgs => set.extend(table, rec[1], rec[2]),
        Action::Other => {
            if s.loc != 0 {
                set.insert(loc_of(kind, rec));
            }
        }
        Action::Mov | Action::Save | Action::SaveComplex | Action::Clear => {}
    }
}

// One turn of the walk: the record, and the registers after it. Answers the most colours that a choice of the record leaves needed.
#[inline(always)]
fn color_turn(
    kind: u32,
    rec: &Record,
    table: &[u32],
    i: u32,
    renaming: &mut Renaming,
    allocs: &mut Allocs,
    colours: &mut [u32],
    ends: &mut [u32],
    set: &mut ReadSet<'_>,
) -> u32
    requires kind_is { kind ≡ word_at rec.now 0 }
    requires may_turn { MayTurn table.now i rec.now (state allocs.old colours.old ends.old) set.old renaming.old }
    ensures { Turned table.now i rec.now (state allocs.old colours.old ends.old) set.old renaming.old (state allocs.new colours.new ends.new) set.new renaming.new result }
{
    expire_sources(allocs, renaming, kind, rec, i, colours);
    let most = color_record(allocs, kind, rec, renaming, i, colours, ends);
    read_record(kind, rec, renaming.statics, ends, table, set);
    renaming.pass(kind, rec);
    most
}

// The turn of the record's kind.
fn color_by_kind(
    rec: &Record,
    table: &[u32],
    i: u32,
    renaming: &mut Renaming,
    allocs: &mut Allocs,
    colours: &mut [u32],
    ends: &mut [u32],
    set: &mut ReadSet<'_>,
) -> u32
    requires { MayTurn table.now i rec.now (state allocs.old colours.old ends.old) set.old renaming.old }
    ensures { Turned table.now i rec.now (state allocs.old colours.old ends.old) set.old renaming.old (state allocs.new colours.new ends.new) set.new renaming.new result }
{
    by_kind!(
        rec,
        color_turn(rec, table, i, renaming, allocs, colours, ends, set)
    )
}

// What the walk tells beside what it leaves: the number of statics, and how full the registers got.
#[derive(Clone, Copy)]
pub struct Filled {
    pub statics: usize,
    pub fullest: u32,
}

// Each static's colour, in order, and the read set; an end whose static was found is left marked.
pub fn color(
    list: &[u32],
    table: &[u32],
    settings: Settings,
    colours: &mut [u32],
    ends: &mut [u32],
    set: &mut ReadSet<'_>,
) -> Filled
    requires empty { members_in set.old ≡ [] }
    requires passing { Passing settings list.now table.now }
    requires colours_room { records list.now * 2 ≤ length colours.old }
    requires ends_room { records list.now * 2 ≤ length ends.old }
    requires set_room { length (members_of settings list.now table.now) * 2 ≤ length set.old.words.now }
    requires ends_value { ends.old ≡ over (ends_of list.now) ends.old }
    ensures statics { result.statics ≡ length (colours_of settings list.now table.now) }
    ensures fullest { result.fullest ≡ fullest_of settings list.now table.now }
    ensures colours { colours.new ≡ over (colours_of settings list.now table.now) colours.old }
    ensures ends { ends.new ≡ over (marked_ends settings list.now table.now) ends.old }
    ensures set { SetHolds set.new (members_of settings list.now table.now) set.old }
{
    let mut renaming = Renaming::new();
    let mut allocs = Allocs::new(settings.count_regs as usize);
    let mut fullest = 0u32;
    for (i, rec) in records_of(list).iter().enumerate() {
        let now = i as u32;
        let most = color_by_kind(
            rec,
            table,
            now,
            &mut renaming,
            &mut allocs,
            colours,
            ends,
            set,
        );
        fullest = fullest.max(most);
    }
    Filled {
        statics: renaming.statics,
        fullest,
    }
}
