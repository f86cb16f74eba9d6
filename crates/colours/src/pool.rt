// The choices among the colours, and what a choice and a read change (document 01, section 3).
ghost use Prim.Native.Nat.{ℕ, ◌<◌};
ghost use Rattle.std.specs.Prelude.{List, [], ◌∷◌, ◌≡◌, eqb, position, take};
ghost use Rattle.mir.specs.Records.{max_regs};
ghost use Rattle.mir.specs.Shapes.{any};
ghost use Rattle.passes.specs.declared.alloc.Alloc.{Alloc};
ghost use Rattle.passes.specs.Color.{plain_choice, needed};
ghost use Rattle.passes.specs.Color as color;
ghost use Rattle.colours.specs.Colours.{nothing, loc_in, held_in, Stands};
ghost use Rattle.colours.specs.Masks.{Masked, Expired};

use crate::allocs::Allocs;
use crate::masks::{lowest, with_bit};
use passes::alloc::Choice;
use passes::symbol::Loc;

// The word of a colour without a location; a word, since `Option<Loc>` takes more instructions (`Allocs`).
pub const NOTHING: u64 = u64::MAX;

// A location as a word: not `From`, which could not ask that the word is not the one for none.
pub fn word_of(l: Loc) -> u64
    requires { l.space < any }
    ensures location { loc_in result ≡ l }
    ensures something { result ≡ nothing → ⊥ }
{
    u64::from(l.space) * 4_294_967_296 + u64::from(l.index)
}

impl Allocs {
    // The plain choice: the first free colour without a location, else the first free one, if the pool has one.
    fn allocate(&self) -> Choice
        ensures { (n i : ℕ) (allocs : List Alloc) → Masked n i self.now.masks allocs → result ≡ plain_choice n i allocs }
    {
        let free = self.masks.free;
        let bare = lowest(free & !self.masks.held);
        bare.or(lowest(free)).map_or(Choice::Empty, Choice::Free)
    }

    // The first colour that holds the location.
    fn holder(&self, l: u64) -> Option<usize>
        ensures { result ≡ position (λ held. eqb held l) (take self.now.count self.now.locs) }
    {
        self.locs[..self.count].iter().position(|&held| held == l)
    }

    // The choice for what a destination is wanted with.
    pub fn choose(&self, want: u64) -> Choice
        ensures { (n i : ℕ) (allocs : List Alloc) → Stands n i self.now allocs → result ≡ color.choose n i (held_in want) allocs }
    {
        if want == NOTHING {
            return self.allocate();
        }
        match self.holder(want) {
            Some(c) => Choice::Found(c as u32),
            None => self.allocate(),
        }
    }

    // How many colours are needed past this instruction: those that are not free.
    fn needed(&self) -> u32
        ensures { (n i : ℕ) (allocs : List Alloc) → Stands n i self.now allocs → result ≡ needed n i allocs }
    {
        let free = self.masks.free;
        (self.count as u32).saturating_sub(free.count_ones())
    }

    // Gives colour `c` to a static that ends at `end`, at instruction `i`. Answers how many colours are needed past it then.
    pub fn assign(&mut self, c: u32, end: u32, want: u64, i: u32) -> u32
        requires { c < max_regs }
        ensures stands { (n : ℕ) (allocs : List Alloc) → c < n → Stands n i self.old allocs → Stands n i self.new (color.assign allocs c end (held_in want)) }
        ensures needed { (n : ℕ) (allocs : List Alloc) → c < n → Stands n i self.old allocs → result ≡ needed n i (color.assign allocs c end (held_in want)) }
    {
        let k = c as usize;
        let life = self.lives[k].max(end);
        self.lives[k] = life;
        self.locs[k] = want;
        self.masks.free = with_bit(self.masks.free, c, life <= i);
        self.masks.held = with_bit(self.masks.held, c, want != NOTHING);
        self.needed()
    }

    // A source's colour becomes free at instruction `i`, if its life ends there.
    pub fn expire(&mut self, w: u32, i: u32)
        requires { w < 256 → w < max_regs }
        ensures { Expired self.old (w ∷ []) i self.new }
    {
        if w < 256 && self.lives[w as usize] <= i {
            self.masks.free = with_bit(self.masks.free, w, true);
        }
    }
}
