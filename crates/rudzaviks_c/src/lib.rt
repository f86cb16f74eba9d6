// The functions exported to C, a static library: each calls the function of its name in crate rudzaviks, and says what that says:
// a crate is a library, which the programs need, or a static library, which C needs.
#![tactic(auto)]

ghost use Rattle.walks.specs.Lent.{lent};
ghost use Rattle.rudzaviks.specs.Exports.{RudzaviksSurvey, RudzaviksOptimize, RudzaviksReduce};
ghost use Rattle.file.specs.File.{flag, settings_of};

// `survey`: the label's place, or a refusal; the mask, how many registers it names and the place go into `parts`.
#[unsafe(no_mangle)]
pub extern "C" fn rudzaviks_survey(
    list: &[u32],
    table: &[u32],
    count_regs: u32,
    compress: u32,
    label: u32,
    parts: &mut [u32],
) -> u64
    ensures { RudzaviksSurvey count_regs (flag compress) label list.now table.now parts.old parts.new result }
{
    rudzaviks::rudzaviks_survey(list, table, count_regs, compress, label, parts)
}

// `optimize`: the number of records that the reduced list has, or a refusal; the eight counts go into `counts`.
#[unsafe(no_mangle)]
pub extern "C" fn rudzaviks_optimize(
    list: &[u32],
    table: &[u32],
    count_regs: u32,
    args: u32,
    complex: u32,
    arm: u32,
    compress: u32,
    out: &mut [u32],
    colours: &mut [u32],
    ends: &mut [u32],
    set: &mut [u32],
    counts: &mut [u32],
) -> u64
    ensures { RudzaviksOptimize (settings_of count_regs args complex arm compress) list.now table.now (lent out.old colours.old ends.old set.old) counts.old (lent out.new colours.new ends.new set.new) counts.new result }
{
    rudzaviks::rudzaviks_optimize(
        list, table, count_regs, args, complex, arm, compress, out, colours, ends, set, counts,
    )
}

// The file reduced into bytes: the number of records, or a refusal.
#[unsafe(no_mangle)]
pub extern "C" fn rudzaviks_reduce(file: &[u8], out: &mut [u8]) -> u64
    ensures { RudzaviksReduce file.now out.old out.new result }
{
    rudzaviks::rudzaviks_reduce(file, out)
}
