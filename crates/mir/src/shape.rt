// What the words of a record are, and what the passes do with it: one decision on the kind.
ghost use Rattle.std.specs.Prelude.{◌≡◌, get_or};
ghost use Rattle.mir.specs.Inner.{listed};
ghost use Rattle.mir.specs.Shapes.{shape_of, dests, registers, sources};

use crate::record::Record;
use Action::{Clear, Load, LoadArgs, LoadComplex, Mov, Other, Save, SaveComplex};

// What the passes do with a record besides reading its sources and writing its destinations.
#[derive(Clone, Copy)]
pub enum Action {
    Mov,
    Load,
    Save,
    LoadComplex,
    SaveComplex,
    LoadArgs,
    // Call, Label, Branch and BranchIf: every colour loses its life and its location.
    Clear,
    Other,
}

#[derive(Clone, Copy)]
pub struct Shape {
    pub action: Action,
    // The place of the first register word; the destinations stand there, and the sources after them.
    pub regs: usize,
    pub dsts: usize,
    pub srcs: usize,
    // The place of the location's two words, or 0 where the record has none: a number, as in the definitions' table of shapes.
    pub loc: usize,
    // The largest value of each word; an unused word's is 0.
    pub most: [u32; 8],
}

// Kinds that the code names. A kind stays a number: one decision on it, with ranges and with kinds that are none, picks the shape.
pub const NOP: u32 = 0;

pub const MOV: u32 = 4;

pub const LOAD: u32 = 5;

pub const SAVE: u32 = 6;

pub const LOAD_COMPLEX: u32 = 7;

pub const SAVE_COMPLEX: u32 = 8;

pub const LOAD_ARGS: u32 = 10;

pub const CALL: u32 = 12;

pub const LABEL: u32 = 15;

pub const BRANCH: u32 = 16;

pub const BRANCH_IF: u32 = 17;

// The largest word, register word and space.
const ANY: u32 = u32::MAX;

const REG: u32 = 259;

const SPC: u32 = 2;

// A row of the table: with the fields' names at each of 21 kinds the rows could not be compared.
fn of(action: Action, regs: usize, dsts: usize, srcs: usize, loc: usize, most: [u32; 8]) -> Shape
    ensures { result ≡ Rattle.mir.specs.Shapes.shape action regs dsts srcs loc most }
{
    Shape {
        action,
        regs,
        dsts,
        srcs,
        loc,
        most,
    }
}

pub fn shape_of(kind: u32) -> Shape
    ensures { result ≡ shape_of kind }
{
    match kind {
        0..=1 => of(Other, 0, 0, 0, 0, [20, 0, 0, 0, 0, 0, 0, 0]),
        2 => of(Other, 2, 1, 1, 0, [20, 19, REG, REG, 0, 0, 0, 0]),
        3 => of(Other, 2, 1, 2, 0, [20, 14, REG, REG, REG, 0, 0, 0]),
        4 => of(Mov, 1, 1, 1, 0, [20, REG, REG, 0, 0, 0, 0, 0]),
        5 => of(Load, 1, 1, 0, 2, [20, REG, SPC, ANY, 0, 0, 0, 0]),
        6 => of(Save, 1, 0, 1, 2, [20, REG, SPC, ANY, 0, 0, 0, 0]),
        7 => of(LoadComplex, 1, 2, 0, 3, [20, REG, REG, SPC, ANY, 0, 0, 0]),
        8 => of(SaveComplex, 1, 0, 2, 3, [20, REG, REG, SPC, ANY, 0, 0, 0]),
        9 => of(Other, 1, 1, 0, 0, [20, REG, ANY, 0, 0, 0, 0, 0]),
        10 => of(LoadArgs, 0, 0, 0, 0, [20, ANY, ANY, 1, 1, 0, 0, 0]),
        11 => of(Other, 0, 0, 0, 0, [20, 255, 1, 1, 0, 0, 0, 0]),
        12 => of(Clear, 0, 0, 0, 0, [20, ANY, ANY, 0, 0, 0, 0, 0]),
        13 => of(Other, 2, 1, 3, 0, [20, 3, REG, REG, REG, REG, 0, 0]),
        14 => of(Other, 1, 1, 2, 4, [20, REG, REG, REG, SPC, ANY, 0, 0]),
        15 => of(Clear, 0, 0, 0, 0, [20, ANY, 0, 0, 0, 0, 0, 0]),
        16 => of(Clear, 0, 0, 0, 0, [20, ANY, 0, 0, 0, 0, 0, 0]),
        17 => of(Clear, 1, 0, 1, 0, [20, REG, ANY, 1, 0, 0, 0, 0]),
        18 => of(Other, 2, 1, 1, 4, [20, 3, REG, REG, SPC, ANY, 0, 0]),
        19 => of(Other, 2, 1, 1, 0, [20, 3, REG, REG, ANY, 0, 0, 0]),
        20 => of(Other, 2, 2, 4, 0, [20, 3, REG, REG, REG, REG, REG, REG]),
        21..=ANY => of(Other, 0, 0, 0, 0, [20, 0, 0, 0, 0, 0, 0, 0]),
    }
}

// The register words of a record: its destinations, and after them its sources.
pub fn registers_of(rec: &Record) -> &[u32]
    ensures { result.now ≡ registers rec.now }
{
    let s = shape_of(rec[0]);
    let end = s.regs + (s.dsts + s.srcs);
    &rec[s.regs..end]
}

// The sources of a record of this kind. The walks have a record's kind in hand, as a number that each arm of theirs knows.
#[inline(always)]
pub fn sources_of(kind: u32, rec: &Record) -> &[u32]
    requires { kind ≡ get_or rec.now 0 0 }
    ensures { result.now ≡ sources rec.now }
{
    let s = shape_of(kind);
    let from = s.regs + s.dsts;
    &rec[from..from + s.srcs]
}

// The destinations of a record, x before y: at most two words, by value. No option, since there may be two; as a slice they would give
// each of the six functions that go over them a loop and an invariant, where two calls need neither.
#[derive(Clone, Copy)]
pub enum Dests {
    Nothing,
    One(u32),
    Two(u32, u32),
}

#[inline(always)]
pub fn dests_of(kind: u32, rec: &Record) -> Dests
    requires { kind ≡ get_or rec.now 0 0 }
    ensures { listed result ≡ dests rec.now }
{
    let s = shape_of(kind);
    let at = s.regs;
    let dsts = s.dsts;
    if dsts == 0 {
        return Dests::Nothing;
    }
    if dsts == 1 {
        return Dests::One(rec[at]);
    }
    Dests::Two(rec[at], rec[at + 1])
}
