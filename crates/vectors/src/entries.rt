// What `optimize` answers and leaves, beside the words of the C entry.
ghost use Rattle.std.specs.Prelude.{◌≡◌, ◌≤◌, ◌↔◌, IsTrue, length, take};
ghost use Rattle.walks.specs.Lent.{report};
ghost use Rattle.allocator.specs.Statics.{entries};
ghost use Rattle.rudzaviks.specs.Exports.{report_word, records_word};

use allocator::statics::Static;
use mir::refusal::Refusal;
use rudzaviks::refusal_word;
use walks::Counts;

// The answer as the C entry's word: how many records are left, or the refusal.
pub fn word_of(given: Result<Counts, Refusal>) -> u64
    ensures { result ≡ report_word records_word (report given) }
{
    match given {
        Ok(counts) => u64::from(counts.tally.records),
        Err(refusal) => refusal_word(refusal),
    }
}

// Whether each entry, also past the last static, has the colour and the end that the words have.
pub fn same_entries(statics: &[Static], colours: &[u32], ends: &[u32]) -> bool
    requires colours_room { length statics.now ≤ length colours.now }
    requires ends_room { length statics.now ≤ length ends.now }
    ensures { IsTrue result ↔ statics.now ≡ entries (take (length statics.now) colours.now) (take (length statics.now) ends.now) }
{
    for k in 0..statics.len() {
        let s = statics[k];
        if s.colour != colours[k] {
            return false;
        }
        if s.end != ends[k] {
            return false;
        }
    }
    true
}
