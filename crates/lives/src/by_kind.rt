/// The turn of the record's kind, which it takes first. In each arm the kind is a number that is written down, and so are the places of
/// its words, which makes a body without jumps of each.
#[macro_export]
macro_rules! by_kind {
    ($rec:expr, $turn:ident($($arg:expr),*)) => {
        match $rec[0] {
            0 => $turn(0, $($arg),*),
            1 => $turn(1, $($arg),*),
            2 => $turn(2, $($arg),*),
            3 => $turn(3, $($arg),*),
            4 => $turn(4, $($arg),*),
            5 => $turn(5, $($arg),*),
            6 => $turn(6, $($arg),*),
            7 => $turn(7, $($arg),*),
            8 => $turn(8, $($arg),*),
            9 => $turn(9, $($arg),*),
            10 => $turn(10, $($arg),*),
            11 => $turn(11, $($arg),*),
            12 => $turn(12, $($arg),*),
            13 => $turn(13, $($arg),*),
            14 => $turn(14, $($arg),*),
            15 => $turn(15, $($arg),*),
            16 => $turn(16, $($arg),*),
            17 => $turn(17, $($arg),*),
            18 => $turn(18, $($arg),*),
            19 => $turn(19, $($arg),*),
            20 => $turn(20, $($arg),*),
            kind => $turn(kind, $($arg),*),
        }
    };
}
