// A file reduced: the sections are read into working space, questioned and reduced.
ghost use Rattle.std.specs.Prelude.{◌+◌, ◌*◌, ◌≤◌, true, Some, ◌≡◌, length};
ghost use Rattle.mir.specs.Answers.{left, unless};
ghost use Rattle.mir.specs.Answers as verdict;
ghost use Rattle.mir.specs.Questions.{refusal, start_refusal, list_refusal};
ghost use Rattle.passes.specs.Contract.{reduced, counts_of};
ghost use Rattle.walks.specs.Lent.{report};
ghost use Rattle.file.specs.File.{FileReduced, settings_in, file_counts, file_reduced, file_verdict, layout_of};

use crate::layout::{Layout, layout_of, read_words, word_at};
use crate::settings_of;
use mir::config::Settings;
use mir::refusal::{Question, Refusal};
use questions::check_start;
use walks::{Counts, reduce};

// The most words that a file's list and table have, and the working space for them, which is fixed: reducing takes no heap.
pub const LIST: usize = 4096;

const TABLE: usize = 1024;

const STATICS: usize = 1024;

const SET: usize = 3072;

// A list of a file's size that passes questions 1 to 4, asked the others and reduced, with working space for its statics and its read set.
fn reduce_in_space(
    list: &[u32],
    table: &[u32],
    settings: Settings,
    out: &mut [u32],
) -> Result<Counts, Refusal>
    requires list_len_bound { length list.now ≤ 4096 }
    requires table_len_bound { length table.now ≤ 1024 }
    requires out_room { length list.now ≤ length out.old }
    requires started { start_refusal true settings (length list.now) (length table.now) ≡ verdict.Passed }
    ensures answer { report result ≡ unless (list_refusal settings.count_regs list.now table.now) (counts_of settings list.now table.now) }
    ensures out { out.new ≡ left (list_refusal settings.count_regs list.now table.now) (reduced settings list.now table.now) out.old }
{
    let mut colours = [0u32; STATICS];
    let mut ends = [0u32; STATICS];
    let mut set = [0u32; SET];
    reduce(
        list,
        table,
        settings,
        out,
        &mut colours,
        &mut ends,
        &mut set,
    )
}

// A list of a file's size questioned and reduced; `room` says whether what it goes to has room for it.
fn reduce_list(
    list: &[u32],
    table: &[u32],
    settings: Settings,
    room: bool,
    out: &mut [u32],
) -> Result<Counts, Refusal>
    requires list_len_bound { length list.now ≤ 4096 }
    requires table_len_bound { length table.now ≤ 1024 }
    requires out_room { room ≡ true → length list.now ≤ length out.old }
    ensures answer { report result ≡ unless (refusal room settings list.now table.now) (counts_of settings list.now table.now) }
    ensures out { out.new ≡ left (refusal room settings list.now table.now) (reduced settings list.now table.now) out.old }
{
    check_start(settings, list.len(), table.len(), room)?;
    reduce_in_space(list, table, settings, out)
}

fn settings_at(file: &[u8]) -> Settings
    requires { 20 ≤ length file.now }
    ensures { result ≡ settings_in file.now }
{
    settings_of(
        word_at(file, 0),
        word_at(file, 1),
        word_at(file, 2),
        word_at(file, 3),
        word_at(file, 4),
    )
}

// The sections of a well-formed file reduced.
pub fn reduce_sections(
    file: &[u8],
    layout: Layout,
    room: bool,
    out: &mut [u32],
) -> Result<Counts, Refusal>
    requires file_value { layout_of file.now ≡ Some layout }
    requires records_in_bounds { room ≡ true → layout.records * 8 ≤ length out.old }
    ensures answer { report result ≡ unless (file_verdict room file.now) (file_counts file.now) }
    ensures out { out.new ≡ left (file_verdict room file.now) (file_reduced file.now) out.old }
{
    let settings = settings_at(file);
    let mut table = [0u32; TABLE];
    let mut list = [0u32; LIST];
    let pair_words = layout.pairs * 2;
    let list_words = layout.records * 8;
    read_words(file, 6, pair_words, &mut table);
    read_words(file, 7 + pair_words, list_words, &mut list);
    reduce_list(
        &list[..list_words],
        &table[..pair_words],
        settings,
        room,
        out,
    )
}

// A file reduced into words.
pub fn reduce_file(file: &[u8], out: &mut [u32]) -> Result<Counts, Refusal>
    ensures { FileReduced file.now out.old out.new result }
{
    let Some(layout) = layout_of(file) else {
        return Err(Question::Lengths.of_list());
    };
    let room = layout.records * 8 <= out.len();
    reduce_sections(file, layout, room, out)
}
