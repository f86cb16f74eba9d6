// The colours, and what a record's action does to them (document 01, section 3).
ghost use Rattle.std.specs.Prelude.{ℕ, ◌<◌, ◌≤◌, List, ◌≡◌, set};
ghost use Rattle.mir.specs.Records.{max_regs};
ghost use Rattle.mir.specs.Shapes.{any};
ghost use Rattle.mir.specs.declared.shape.Action.TheVariants as act;
ghost use Rattle.passes.specs.declared.alloc.Alloc.{Alloc};
ghost use Rattle.passes.specs.Color.{blank, colour_at};
ghost use Rattle.passes.specs.Color as color;

use crate::masks::{Masks, first_bits, with_bit};
use crate::pool::{NOTHING, word_of};
use mir::config::MAX_REGS;
use mir::shape::Action;
use passes::symbol::Loc;

// The colours while a list is coloured.
#[derive(Drop)]
pub struct Allocs {
    // How many colours there are.
    pub count: usize,
    pub masks: Masks,
    // Up to where each colour is needed.
    pub lives: [u32; MAX_REGS],
    // The word of each colour's location, or `NOTHING`: `Option<Loc>` was tried, and takes 3% more instructions a record. An array of its
    // own, since the search for a location goes over these words alone.
    pub locs: [u64; MAX_REGS],
    pub ghost few: { count ≤ max_regs },
}

impl Allocs {
    ghost use Rattle.colours.specs.Colours.{nothing, loc_in, Stands, sources_used};

    // Every life 0, no location: each of the `n` colours is free.
    pub fn new(n: usize) -> Allocs
        requires { n ≤ max_regs }
        ensures { (i : ℕ) → Stands n i result blank }
    {
        Allocs {
            count: n,
            masks: Masks {
                free: first_bits(n),
                held: 0,
            },
            lives: [0; MAX_REGS],
            locs: [NOTHING; MAX_REGS],
        }
    }

    // As at the start.
    fn reset(&mut self)
        ensures { (i : ℕ) → Stands self.old.count i self.new blank }
    {
        *self = Allocs::new(self.count);
    }

    // Clears the location from colour `c`.
    fn clear_at(&mut self, c: usize, l: u64)
        requires c_lt_max_regs { c < max_regs }
        requires is_location { l ≡ nothing → ⊥ }
        ensures { (n i : ℕ) (allocs : List Alloc) → c < n → Stands n i self.old allocs → Stands n i self.new (set allocs c (color.without (loc_in l) (colour_at allocs c))) }
    {
        if self.locs[c] == l {
            self.locs[c] = NOTHING;
            self.masks.held = with_bit(self.masks.held, c as u32, false);
        }
    }

    // Clears the location from every colour.
    fn clear(&mut self, l: u64)
        requires { l ≡ nothing → ⊥ }
        ensures { (n i : ℕ) (allocs : List Alloc) → Stands n i self.old allocs → Stands n i self.new (color.clear (loc_in l) allocs) }
    {
        for c in 0..self.count {
            self.clear_at(c, l);
        }
    }

    // Gives the location to a source's colour, if the source is Gen.
    fn give(&mut self, w: u32, l: u64)
        requires w_lt_max_regs { w < 256 → w < max_regs }
        requires is_location { l ≡ nothing → ⊥ }
        ensures { (n i : ℕ) (allocs : List Alloc) → (w < 256 → w < n) → Stands n i self.old allocs → Stands n i self.new (color.give w (loc_in l) allocs) }
    {
        if w < 256 {
            let c = w as usize;
            self.locs[c] = l;
            self.masks.held = with_bit(self.masks.held, w, true);
        }
    }

    fn save(&mut self, l: Loc, x: u32)
        requires space_lt_any { l.space < any }
        requires x_lt_count { x < 256 → x < self.old.count }
        ensures { (n i : ℕ) (allocs : List Alloc) → Stands n i self.old allocs → Stands n i self.new (color.give x l (color.clear l allocs)) }
    {
        let word = word_of(l);
        self.clear(word);
        self.give(x, word);
    }

    fn save_complex(&mut self, l: Loc, x: u32, y: u32)
        requires space_lt_any { l.space < any }
        requires index_lt_any { l.index < any }
        requires x_lt_count { x < 256 → x < self.old.count }
        requires y_lt_count { y < 256 → y < self.old.count }
        ensures { (n i : ℕ) (allocs : List Alloc) → Stands n i self.old allocs → Stands n i self.new (color.update_allocs act.SaveComplex l x y allocs) }
    {
        let real = word_of(l);
        let imag = word_of(partner(l));
        self.clear(real);
        self.clear(imag);
        self.give(x, real);
        self.give(y, imag);
    }

    // What the action does; `x` and `y` are the coloured sources.
    pub fn update(&mut self, action: Action, l: Loc, x: u32, y: u32)
        requires space_lt_any { l.space < any }
        requires index_lt_any { action ≡ act.SaveComplex → l.index < any }
        requires x_lt_count { 0 < sources_used action → x < 256 → x < self.old.count }
        requires y_lt_count { 1 < sources_used action → y < 256 → y < self.old.count }
        ensures { (n i : ℕ) (allocs : List Alloc) → Stands n i self.old allocs → Stands n i self.new (color.update_allocs action l x y allocs) }
    {
        match action {
            Action::Save => self.save(l, x),
            Action::SaveComplex => self.save_complex(l, x, y),
            Action::Clear => self.reset(),
            _ => {}
        }
    }
}

pub fn partner(l: Loc) -> Loc
    requires { l.index < any }
    ensures { result ≡ color.partner l }
{
    Loc {
        space: l.space,
        index: l.index + 1,
    }
}
