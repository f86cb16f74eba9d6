// Working space for the colours and the ends, in classes by how many records a list has: 768, 5,120 and 65,536, as the first walk has
// them. A list takes the space of its class and no more.
ghost use Rattle.std.specs.Prelude.{◌*◌, ◌/◌, ◌≤◌, ◌≡◌, true, length};
ghost use Rattle.mir.specs.Answers as verdict;
ghost use Rattle.mir.specs.Questions.{start_refusal, list_refusal};
ghost use Rattle.walks.specs.Walks.{Roomy};
ghost use Rattle.allocator.specs.Optimize.{LeavesStatics, lent_statics};

use crate::statics::{Static, write_statics};
use lives::ask_first;
use mir::config::Settings;
use mir::refusal::Refusal;
use walks::{Counts, reduce};

// The walks with working space that is lent, and the statics of a list that passes written from it.
fn reduce_with(
    list: &[u32],
    table: &[u32],
    settings: Settings,
    out: &mut [u32],
    statics: &mut [Static],
    set: &mut [u32],
    colours: &mut [u32],
    ends: &mut [u32],
) -> Result<Counts, Refusal>
    requires started { start_refusal true settings (length list.now) (length table.now) ≡ verdict.Passed }
    requires roomy { Roomy (length list.now) (length table.now) (length out.old) (length statics.old) (length statics.old) (length set.old) }
    requires colours_room { length list.now / 8 * 2 ≤ length colours.old }
    requires ends_room { length list.now / 8 * 2 ≤ length ends.old }
    ensures { LeavesStatics (list_refusal settings.count_regs list.now table.now) settings list.now table.now (lent_statics out.old statics.old set.old) (lent_statics out.new statics.new set.new) result }
{
    let counts = reduce(list, table, settings, out, colours, ends, set)?;
    write_statics(colours, ends, counts.statics as usize, statics);
    Ok(counts)
}

// Kept out of its caller's frame, or a short list would take the stack of a long one.
#[inline(never)]
fn reduce_in<const N: usize>(
    list: &[u32],
    table: &[u32],
    settings: Settings,
    out: &mut [u32],
    statics: &mut [Static],
    set: &mut [u32],
) -> Result<Counts, Refusal>
    requires started { start_refusal true settings (length list.now) (length table.now) ≡ verdict.Passed }
    requires roomy { Roomy (length list.now) (length table.now) (length out.old) (length statics.old) (length statics.old) (length set.old) }
    requires space { length list.now / 8 * 2 ≤ N }
    requires small { N ≤ 131072 }
    ensures { LeavesStatics (list_refusal settings.count_regs list.now table.now) settings list.now table.now (lent_statics out.old statics.old set.old) (lent_statics out.new statics.new set.new) result }
{
    let mut colours = [0u32; N];
    let mut ends = [0u32; N];
    reduce_with(
        list,
        table,
        settings,
        out,
        statics,
        set,
        &mut colours,
        &mut ends,
    )
}

// A list that passes questions 1 to 4 is asked the others and reduced, in the space of its class: two words of each kind for a record.
// A long one whose first records do not pass takes none.
pub fn reduce_sized(
    list: &[u32],
    table: &[u32],
    settings: Settings,
    out: &mut [u32],
    statics: &mut [Static],
    set: &mut [u32],
) -> Result<Counts, Refusal>
    requires started { start_refusal true settings (length list.now) (length table.now) ≡ verdict.Passed }
    requires roomy { Roomy (length list.now) (length table.now) (length out.old) (length statics.old) (length statics.old) (length set.old) }
    ensures { LeavesStatics (list_refusal settings.count_regs list.now table.now) settings list.now table.now (lent_statics out.old statics.old set.old) (lent_statics out.new statics.new set.new) result }
{
    let records = list.len() / 8;
    if records <= 768 {
        return reduce_in::<1_536>(list, table, settings, out, statics, set);
    }
    ask_first(list, table, settings.count_regs)?;
    if records <= 5_120 {
        reduce_in::<10_240>(list, table, settings, out, statics, set)
    } else {
        reduce_in::<131_072>(list, table, settings, out, statics, set)
    }
}
