// What stands beside the passes (the Rust's mir.rs): a survey of the registers that a list uses and of where it has a label.
#![tactic(auto)]

ghost use Rattle.std.specs.Prelude.{◌≤◌, ◌<◌, true, cond, [], ◌∷◌, ◌≡◌, length};
ghost use Rattle.mir.specs.Answers.{unless};
ghost use Rattle.survey.specs.Beside.{mask_of, get_dst, every, place_in, parts, survey_of, survey_report};
ghost use Rattle.mir.specs.Branches.{is_label};
ghost use Rattle.mir.specs.Questions.{gens_fit, well_sized, shape_refusal};
ghost use Rattle.mir.specs.Records.{max_regs};

pub mod laws;

use mir::config::Settings;
use mir::questions::{check_shape, check_sizes};
use mir::record::{Record, records_of};
use mir::refusal::Refusal;
use mir::shape::{BRANCH_IF, Dests, LABEL, dests_of};

// The registers that a list uses, and where it has a label.
#[derive(Clone, Copy, Debug, PartialEq, Eq)]
pub struct Registers {
    // A bit for each register.
    pub mask: u64,
    // How many the mask names.
    pub count: u32,
    // The index of the last Label with the number that was looked for.
    pub place: Option<u32>,
}

// The bit of a Gen register; none of a named one.
fn bit(w: u32) -> u64
    requires { w < 256 → w < max_regs }
    ensures { result ≡ mask_of (w ∷ []) }
{
    if w < 256 { 1 << w } else { 0 }
}

// The bits of two registers, if both are Gen: not `bit` twice, since one that is not Gen leaves out the other.
fn two_bits(x: u32, y: u32) -> u64
    requires x_lt_max_regs { x < 256 → x < max_regs }
    requires y_lt_max_regs { y < 256 → y < max_regs }
    ensures { result ≡ mask_of (x ∷ y ∷ []) }
{
    if 256 <= x {
        return 0;
    }
    if 256 <= y {
        return 0;
    }
    (1 << x) | (1 << y)
}

// The mask of the registers that a record counts.
fn get_dst(rec: &Record) -> u64
    requires { gens_fit max_regs rec.now ≡ true }
    ensures { result ≡ get_dst rec.now }
{
    let kind = rec[0];
    match kind {
        BRANCH_IF => bit(rec[1]),
        _ => match dests_of(rec[0], rec) {
            Dests::Nothing => 0,
            Dests::One(x) => bit(x),
            Dests::Two(x, y) => two_bits(x, y),
        },
    }
}

// Whether a record is the Label with the number `label`.
fn is_label(rec: &Record, label: u32) -> bool
    ensures { result ≡ is_label label rec.now }
{
    rec[0] == LABEL && rec[1] == label
}

// The place found so far, once record `i` has been looked at.
fn later_label(found: Option<u32>, rec: &Record, i: u32, label: u32) -> Option<u32>
    ensures { place_in result ≡ cond (is_label label rec.now) (i ∷ []) (place_in found) }
{
    if is_label(rec, label) { Some(i) } else { found }
}

// The mask of a list, by the mask of its records: every register if `compress` is set.
fn used_mask(mask: u64, compress: bool) -> u64
    ensures { result ≡ cond compress every mask }
{
    if compress { u64::MAX } else { mask }
}

// The one walk: each record is asked questions 5 to 7 before its registers are counted and its label is looked at.
fn survey_records(
    list: &[u32],
    table: &[u32],
    settings: Settings,
    label: u32,
) -> Result<Registers, Refusal>
    requires count_regs_bound { settings.count_regs ≤ max_regs }
    requires table_value { well_sized (length list.now) (length table.now) ≡ true }
    ensures { survey_report result ≡ unless (shape_refusal table.now settings.count_regs list.now) (parts settings.compress label list.now) }
{
    let mut mask = 0;
    let mut place = None;
    for (i, rec) in records_of(list).iter().enumerate() {
        // Not `map_err` and `?`: the proof does not reach what a closure gives there.
        if let Err(question) = check_shape(rec, table, settings.count_regs) {
            return Err(question.of_record(i as u32));
        }
        mask |= get_dst(rec);
        place = later_label(place, rec, i as u32, label);
    }
    let used = used_mask(mask, settings.compress);
    Ok(Registers {
        mask: used,
        count: used.count_ones(),
        place,
    })
}

// The registers that a list uses, how many they are, and the place of the last Label with the number `label`.
pub fn survey(
    list: &[u32],
    table: &[u32],
    settings: Settings,
    label: u32,
) -> Result<Registers, Refusal>
    ensures { survey_report result ≡ survey_of settings.count_regs settings.compress label list.now table.now }
{
    check_sizes(list.len(), table.len(), settings.count_regs, true)?;
    survey_records(list, table, settings, label)
}
