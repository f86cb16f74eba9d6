// The read set (document 01, section 3; the Rust's `locs`): the locations that records of the output read, in joining order
// and without repeats.
#![tactic(auto)]

ghost use Rattle.std.specs.Prelude.{ℕ, ◌+◌, ◌*◌, ◌/◌, ◌%◌, ◌<◌, ◌≤◌, [], true, ◌≡◌, length, set, MatchResult};
ghost use Rattle.sets.specs.Sets.{pair_at, bucket, key, link, Roomy, Indexed, Ends};
ghost use Rattle.passes.specs.Color.{pairs_from, is_member, join, joined};

pub mod laws;

use passes::symbol::Loc;

// The location whose words are the `j`th pair.
fn loc_at(words: &[u32], j: usize) -> Loc
    requires { j * 2 + 2 ≤ length words.now }
    ensures { result ≡ pair_at words.now j }
{
    Loc {
        space: words[j * 2],
        index: words[j * 2 + 1],
    }
}

// The head where the walk for a location starts; its index is mixed, so that neighbours start apart.
fn bucket(l: Loc, heads: usize) -> usize
    requires { heads ≤ 16777216 }
    ensures { result ≡ bucket l heads }
{
    let mixed = u64::from(l.index) * 2_654_435_769 + u64::from(l.space) * 1_000_003;
    ((mixed % 4_294_967_296) * (heads as u64) / 4_294_967_296) as usize
}

// The bits that the walk for a location goes by, lowest first.
fn key(l: Loc) -> u64
    ensures { result ≡ key l }
{
    u64::from(l.space) * 4_294_967_296 + u64::from(l.index)
}

// The link at a place, which stands in two parts: 24 bits for each take less room than words.
fn link(low: &[u16], high: &[u8], place: usize) -> usize
    requires in_low { place < length low.now }
    requires in_high { place < length high.now }
    ensures { result ≡ link low.now high.now place }
{
    (high[place] as usize) * 65_536 + (low[place] as usize)
}

// A link goes to a place.
fn put(low: &mut [u16], high: &mut [u8], place: usize, v: usize)
    requires in_low { place < length low.old }
    requires in_high { place < length high.old }
    requires v_fits { v < 16777216 }
    ensures low { low.new ≡ set low.old place (v % 65536) }
    ensures high { high.new ≡ set high.old place (v / 65536) }
{
    low[place] = (v % 65_536) as u16;
    high[place] = (v / 65_536) as u8;
}

// Where the next pair that a LoadArgs names may be a member: after the one before it, if that one was so too. Pairs that are named again
// mostly stand as they joined.
#[derive(Clone, Copy)]
struct Guess {
    member: usize,
    is_run: bool,
}

/// The members lie in `words`, which are lent, two words each. `low` and `high` are their index, lent too: links, first the heads
/// and then two for each member. Below a head the members are a tree, which is searched by the bits of a location's key: members on
/// one path agree in one bit more at each step, so it passes 35 of them at most, as a key of the three spaces has 34 bits.
#[derive(Drop)]
pub struct ReadSet<'a> {
    pub words: &'a mut [u32],
    pub len: usize,
    pub heads: usize,
    pub low: &'a mut [u16],
    pub high: &'a mut [u8],
    pub ghost room: { len * 2 ≤ length words.now },
    pub ghost links: { Roomy heads (length words.now) (length low.now) (length high.now) },
    pub ghost index: { Indexed words.now len heads (link low.now high.now) },
}

impl<'a> ReadSet<'a> {
    ghost use Rattle.sets.specs.Members.{members_in, SetHolds};

    /// No members yet.
    #[tactic(auto, unfolding(passes::specs::Color::pairs_from))]
    pub fn new(
        words: &'a mut [u32],
        heads: usize,
        low: &'a mut [u16],
        high: &'a mut [u8],
    ) -> ReadSet<'a>
        requires links { Roomy heads (length words.old) (length low.old) (length high.old) }
        requires no_links { (k : ℕ) → link low.old high.old k ≡ 0 }
        ensures same_reference { result.words.ghost_name ≡ words.entry.ghost_name }
        ensures words { result.words.now ≡ words.old }
        ensures empty { members_in result ≡ [] }
    {
        ReadSet {
            words,
            len: 0,
            heads,
            low,
            high,
        }
    }

    #[tactic(auto, using(theorems::proofs::Members::pairs_length))]
    pub fn len(&self) -> usize
        ensures { result ≡ length (members_in self.now) }
    {
        self.len
    }

    // The place with no link where the walk for a location ends, unless it comes to the location: then, by its number, the member.
    fn find(&self, l: Loc) -> Result<usize, usize>
        ensures { MatchResult result (λ place. Ends self.now.words.now self.now.len self.now.heads (link self.now.low.now self.now.high.now) l place) (λ member. is_member l (members_in self.now) ≡ true) }
    {
        let mut place = bucket(l, self.heads);
        let mut bits = key(l);
        loop {
            let v = link(self.low, self.high, place);
            if v == 0 {
                return Ok(place);
            }
            if loc_at(self.words, v - 1) == l {
                return Err(v - 1);
            }
            place = self.heads + ((v - 1) * 2 + (bits % 2) as usize);
            bits /= 2;
        }
    }

    pub fn contains(&self, l: Loc) -> bool
        ensures { result ≡ is_member l (members_in self.now) }
    {
        self.find(l).is_err()
    }

    // The location joins, unless it is a member already. Gives the number of the member after it, if there is one.
    #[tactic(auto, using(crate::proofs::Pairs::insert_rules))]
    #[inline(always)]
    fn join_after(&mut self, l: Loc) -> usize
        requires { length (join (members_in self.old) l) * 2 ≤ length self.old.words.now }
        ensures { SetHolds self.new (join (members_in self.old) l) self.old }
    {
        match self.find(l) {
            Ok(place) => {
                let at = self.len * 2;
                self.words[at] = l.space;
                self.words[at + 1] = l.index;
                put(self.low, self.high, place, self.len + 1);
                self.len += 1;
                self.len
            }
            Err(member) => member.saturating_add(1),
        }
    }

    /// The location joins, unless it is a member already.
    pub fn insert(&mut self, l: Loc)
        requires { length (join (members_in self.old) l) * 2 ≤ length self.old.words.now }
        ensures { SetHolds self.new (join (members_in self.old) l) self.old }
    {
        self.join_after(l);
    }

    // Whether the member of this number is the location.
    #[inline(always)]
    fn is_at(&self, member: usize, l: Loc) -> bool
        ensures { result ≡ true → is_member l (members_in self.now) ≡ true }
    {
        member < self.len && loc_at(self.words, member) == l
    }

    // The location joins, looked for first where the members before it have been. Gives where the one after it may be.
    #[tactic(auto, using(crate::proofs::Pairs::insert_rules))]
    #[inline(always)]
    fn join_at(&mut self, guess: Guess, l: Loc) -> Guess
        requires { length (join (members_in self.old) l) * 2 ≤ length self.old.words.now }
        ensures { SetHolds self.new (join (members_in self.old) l) self.old }
    {
        let after = guess.member.saturating_add(1);
        if guess.is_run && self.is_at(guess.member, l) {
            return Guess {
                member: after,
                is_run: true,
            };
        }
        let member = self.join_after(l);
        Guess {
            member,
            is_run: member == after && member < self.len,
        }
    }

    /// Each of `count` pairs of the table joins, from the pair `first` on.
    #[tactic(auto, using(crate::proofs::Pairs::extend_rules))]
    pub fn extend(&mut self, table: &[u32], first: u32, count: u32)
        requires count_in_bounds { first + count ≤ length table.now / 2 }
        requires room { length (joined (members_in self.old) (pairs_from table.now first count)) * 2 ≤ length self.old.words.now }
        ensures { SetHolds self.new (joined (members_in self.old) (pairs_from table.now first count)) self.old }
    {
        let from = first as usize;
        let mut guess = Guess {
            member: self.len,
            is_run: false,
        };
        for j in 0..count as usize {
            guess = self.join_at(guess, loc_at(table, from + j));
        }
    }
}
