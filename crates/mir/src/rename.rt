// Which static each register holds (document 01, section 2).
ghost use Rattle.std.specs.Prelude.{◌+◌, ◌<◌, None, ◌≡◌, get_or};
ghost use Rattle.mir.specs.Renaming.{fresh, gens, one, produced, renamed};
ghost use Rattle.mir.specs.Shapes.{any, dests};
ghost use Rattle.mir.specs.Inner.{KnownIn};

use crate::config::MAX_REGS;
use crate::record::Record;
use crate::shape::{CALL, Dests, LABEL, dests_of};

// The static that a register holds; a named register, or a number past the registers, holds none. Reading and renaming ask less than
// methods of `Renaming` would: nothing of the statics that the registers hold.
pub fn static_of(regs: &[Option<u32>; MAX_REGS], w: u32) -> Option<u32>
    ensures { result ≡ get_or regs.now w None }
{
    regs.get(w as usize).copied().flatten()
}

// How many statics a destination makes. A register word below 256 is Gen: records are words, as C lends them.
pub fn count_static(w: u32) -> u32
    ensures { result ≡ one w }
{
    if w < 256 { 1 } else { 0 }
}

// A written Gen register takes the static `next`.
fn produce(regs: &mut [Option<u32>; MAX_REGS], w: u32, next: u32)
    ensures { regs.new ≡ Rattle.mir.specs.Renaming.produce w next regs.old }
{
    let r = w as usize;
    if r < MAX_REGS {
        regs[r] = Some(next);
    }
}

// The registers after the destinations of a record; its first new static is `next`. Gives the number after its last. The static
// after x's is counted here, as it is where destinations take colours and are rewritten.
#[inline(always)]
fn produce_all(regs: &mut [Option<u32>; MAX_REGS], kind: u32, rec: &Record, next: u32) -> u32
    requires kind_is { kind ≡ get_or rec.now 0 0 }
    requires next_fits { next + 1 < any }
    ensures regs { regs.new ≡ produced (dests rec.now) next regs.old }
    ensures next { result ≡ next + gens (dests rec.now) }
{
    match dests_of(kind, rec) {
        Dests::Nothing => next,
        Dests::One(x) => {
            produce(regs, x, next);
            next + count_static(x)
        }
        Dests::Two(x, y) => {
            produce(regs, x, next);
            let after = next + count_static(x);
            produce(regs, y, after);
            after + count_static(y)
        }
    }
}

// The registers after a record. Gives the number of the next static.
#[inline(always)]
pub fn rename(regs: &mut [Option<u32>; MAX_REGS], kind: u32, rec: &Record, next: u32) -> u32
    requires kind_is { kind ≡ get_or rec.now 0 0 }
    requires next_fits { next + 1 < any }
    ensures regs { regs.new ≡ renamed rec.now next regs.old }
    ensures next { result ≡ next + gens (dests rec.now) }
{
    match kind {
        CALL | LABEL => {
            *regs = [None; MAX_REGS];
            next
        }
        _ => produce_all(regs, kind, rec, next),
    }
}

// The registers as a walk over a list goes on.
#[derive(Drop)]
pub struct Renaming {
    // The static that each register holds.
    pub regs: [Option<u32>; MAX_REGS],
    // How many statics there are so far, which is the number of the next.
    pub statics: usize,
    pub ghost known: { KnownIn regs statics },
}

impl Renaming {
    // Before the first record.
    pub fn new() -> Renaming
        ensures regs { result.regs ≡ fresh }
        ensures statics { result.statics ≡ 0 }
    {
        Renaming {
            regs: [None; MAX_REGS],
            statics: 0,
        }
    }

    // After a record.
    #[inline(always)]
    pub fn pass(&mut self, kind: u32, rec: &Record)
        requires kind_is { kind ≡ get_or rec.now 0 0 }
        requires statics_fit { self.old.statics + 1 < any }
        ensures regs { self.new.regs ≡ renamed rec.now self.old.statics self.old.regs }
        ensures statics { self.new.statics ≡ self.old.statics + gens (dests rec.now) }
    {
        self.statics = rename(&mut self.regs, kind, rec, self.statics as u32) as usize;
    }
}
