// The form for callers that lend the statics as two slices of words, as C does.
ghost use Rattle.walks.specs.Lent.{lent};
ghost use Rattle.allocator.specs.Optimize.{OptimizedWords};

use crate::has_room;
use mir::config::Settings;
use mir::refusal::Refusal;
use questions::check_start;
use walks::{Counts, reduce};

// The list reduced, at the start of `out`; each static's colour and end, and the read set. The shorter slice says how many
// statics have room.
pub fn optimize_words(
    list: &[u32],
    table: &[u32],
    settings: Settings,
    out: &mut [u32],
    colours: &mut [u32],
    ends: &mut [u32],
    set: &mut [u32],
) -> Result<Counts, Refusal>
    ensures { OptimizedWords settings list.now table.now (lent out.old colours.old ends.old set.old) (lent out.new colours.new ends.new set.new) result }
{
    let room = has_room(
        list.len(),
        table.len(),
        out.len(),
        colours.len().min(ends.len()),
        set.len(),
    );
    check_start(settings, list.len(), table.len(), room)?;
    reduce(list, table, settings, out, colours, ends, set)
}
