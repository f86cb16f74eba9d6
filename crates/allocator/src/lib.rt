// The allocator: `optimize` puts the questions to a list and shortens one that passes (the Rust's allocator.rs, whose
// passes are in crates lives, coloring and walks). `words::optimize_words` is the form that C calls.
#![tactic(auto)]

ghost use Rattle.std.specs.Prelude.{◌≡◌};
ghost use Rattle.allocator.specs.Optimize.{Optimized, lent_statics, room_for};

pub mod laws;
pub mod sized;
pub mod statics;
#[cfg(test)]
mod tests;
pub mod words;

use crate::statics::Static;
use mir::config::Settings;
use mir::refusal::Refusal;
use questions::check_start;
use walks::Counts;

// Question 4: whether the lent slices are long enough, by the numbers of their words and of the entries for statics.
fn has_room(list: usize, table: usize, out: usize, statics: usize, set: usize) -> bool
    ensures { result ≡ room_for list table out statics set }
{
    let count = list / 8;
    if out < list {
        return false;
    }
    if statics < count * 2 {
        return false;
    }
    if set < table {
        return false;
    }
    count * 4 <= set - table
}

// The list reduced, at the start of `out`; an entry for each static, and the read set.
pub fn optimize(
    list: &[u32],
    table: &[u32],
    settings: Settings,
    out: &mut [u32],
    statics: &mut [Static],
    set: &mut [u32],
) -> Result<Counts, Refusal>
    ensures { Optimized settings list.now table.now (lent_statics out.old statics.old set.old) (lent_statics out.new statics.new set.new) result }
{
    let room = has_room(list.len(), table.len(), out.len(), statics.len(), set.len());
    check_start(settings, list.len(), table.len(), room)?;
    sized::reduce_sized(list, table, settings, out, statics, set)
}
