// The lent statics: an entry is a static's colour and its end.
ghost use Rattle.std.specs.Prelude.{◌≡◌, ◌≤◌, ◌++◌, length, take, drop};
ghost use Rattle.allocator.specs.Statics.{entries};

// A static's colour, and the index of the record that reads it last.
#[derive(Clone, Copy)]
pub struct Static {
    pub colour: u32,
    pub end: u32,
}

// The first `n` colours and ends as entries, at the start of the statics.
pub fn write_statics(colours: &[u32], ends: &[u32], n: usize, statics: &mut [Static])
    requires colours_room { n ≤ length colours.now }
    requires ends_room { n ≤ length ends.now }
    requires statics_room { n ≤ length statics.old }
    ensures { statics.new ≡ entries (take n colours.now) (take n ends.now) ++ drop n statics.old }
{
    for k in 0..n {
        statics[k] = Static {
            colour: colours[k],
            end: ends[k],
        };
    }
}
