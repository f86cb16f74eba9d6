// What a failed read or write is said to be: no clause says it.
use crate::{Failure, show_input};
use std::io;
use std::io::{ErrorKind, Read};

// An input that can't be read.
#[derive(Drop)]
struct Broken;

impl Read for Broken {
    fn read(&mut self, _buf: &mut [u8]) -> io::Result<usize> {
        Err(io::Error::from(ErrorKind::BrokenPipe))
    }
}

fn says(rt: &impl AllocGlobal, given: Result<(), Failure>, expected: &str) -> io::Result<bool> {
    match given {
        Ok(()) => Ok(false),
        Err(failure) => Ok(format!(in rt.alloc(); "{failure}")?.as_str() == expected),
    }
}

#[test]
fn a_failure_says_what_failed(rt: HostRuntime) -> io::Result<()> {
    let mut file = [0; 4];
    let mut room = [0; 16];
    let unread = show_input(&mut Broken, &mut &mut room[..], &mut file);
    assert!(rt; says(&rt, unread, "can't read standard input: broken pipe")?);
    // What is printed of an empty file is longer than this.
    let unwritten = show_input(&mut &[][..], &mut &mut room[..3], &mut file);
    assert!(rt;
        says(
            &rt,
            unwritten,
            "can't write standard output: failed to write whole buffer"
        )?
    );
    let read = show_input(&mut &[][..], &mut &mut room[..], &mut file);
    assert!(rt; read.is_ok());
    Ok(())
}
