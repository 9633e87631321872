//! The program `rst`: it joins points of the plane by horizontal and vertical lines.
#![tactic(auto)]

use rst_outside::{DirShelf, StdSink, StdSource};
use std::fs::OpenOptions;
use std::io::Read;
use std::process::ExitCode;
use std::{env, io};
use suite::run;
use tool_frame::NO_MEMORY;

// The words after the program's name. None where memory to hold them is wanting. Where one of them is no text
// there are no words.
fn words_of(rt: &HostRuntime) -> Option<Vec<String>> {
    match env::args(rt) {
        Ok(args) => args.skip(1).collect(rt.alloc()).ok(),
        Err(e) if e.kind() == io::ErrorKind::OutOfMemory => None,
        Err(_) => Some(Vec::new(rt.alloc())),
    }
}

fn main(rt: HostRuntime) -> ExitCode {
    let Some(words) = words_of(&rt) else {
        return ExitCode::from(NO_MEMORY);
    };
    // A named file would take the place of a standard input that is closed, and be read as the input. So a file that
    // can't be read takes it, until the end.
    let is_closed = rt.stdin().read(&mut [0; 0]).is_err();
    let _held = if is_closed {
        OpenOptions::new().write(true).open(&rt, "/dev/null").ok()
    } else {
        None
    };
    let mut input = StdSource::new(rt.stdin());
    let mut out = StdSink::new(rt.stdout());
    let mut err = StdSink::new(rt.stderr());
    let mut shelf = DirShelf::new(&rt);
    ExitCode::from(run(
        rt.alloc(),
        words.as_slice(),
        &mut input,
        &mut out,
        &mut err,
        &mut shelf,
    ))
}
