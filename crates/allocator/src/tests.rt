// Lists at the limits of the classes of working space, reduced in both forms: stack and compiled code are outside the proofs.
use crate::optimize;
use crate::statics::Static;
use crate::words::optimize_words;
use mir::config::Settings;

// One more than the two lower classes have.
const RECORDS: usize = 5_121;

// Whether a list of constants, each of which makes a static that nobody reads, has the same entries as words.
fn agrees(records: usize) -> bool {
    let mut list = [0u32; RECORDS * 8];
    for k in 0..RECORDS {
        list[k * 8] = 9;
    }
    let list = &list[..records.min(RECORDS) * 8];
    let settings = Settings {
        count_regs: 2,
        args: 0,
        complex: false,
        arm: false,
        compress: false,
    };
    let mut out = [1u32; RECORDS * 8];
    let mut colours = [7u32; RECORDS * 2];
    let mut ends = [7u32; RECORDS * 2];
    let mut set = [1u32; RECORDS * 4];
    let mut statics = [Static { colour: 7, end: 7 }; RECORDS * 2];
    let words = optimize_words(
        list,
        &[],
        settings,
        &mut out,
        &mut colours,
        &mut ends,
        &mut set,
    );
    let given = optimize(list, &[], settings, &mut out, &mut statics, &mut set);
    let counted = match (words, given) {
        (Ok(w), Ok(g)) => w.statics as usize == records && g.statics as usize == records,
        _ => false,
    };
    counted
        && statics
            .iter()
            .zip(&colours)
            .zip(&ends)
            .all(|((s, colour), end)| s.colour == *colour && s.end == *end)
}

#[test]
fn each_class_has_space(rt: HostRuntime) {
    for records in [0, 1, 768, 769, 5_120, 5_121] {
        assert!(rt; agrees(records), "at {records}");
    }
}
