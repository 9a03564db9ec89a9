//! Reads a closed polygon mesh and a length for each edge, and prints shortest loops, bases and
//! cycles, or the mesh cut open.
//!
//! All that the program does is one call, `surf_run::run`, whose contract says what it answers.
//! Here stand only the real files and streams that it is given.
#![tactic(auto)]

mod disk;

use disk::{DiskShelf, StdSink};
use std::alloc::Global;
use std::process::ExitCode;
use std::{env, io};
use surf_run::{MEMORY, USAGE, run, say};

/// Why the words after the program's name can't be read.
enum Unread {
    /// A word is no text.
    NoText,
    /// There was no memory for them.
    NoMemory,
}

fn words_of(rt: &HostRuntime, alloc: Global) -> Result<Vec<String>, Unread> {
    let args = match env::args(rt) {
        Ok(args) => args,
        Err(e) if e.kind() == io::ErrorKind::OutOfMemory => return Err(Unread::NoMemory),
        Err(_) => return Err(Unread::NoText),
    };
    let mut words = Vec::new(alloc);
    for word in args.skip(1) {
        if words.push(word).is_err() {
            return Err(Unread::NoMemory);
        }
    }
    Ok(words)
}

fn main(rt: HostRuntime) -> ExitCode {
    let alloc = rt.alloc();
    let mut diag = StdSink::new(rt.stderr());
    let words = match words_of(&rt, alloc) {
        Ok(words) => words,
        Err(Unread::NoText) => {
            say(&mut diag, USAGE);
            return ExitCode::from(2);
        }
        Err(Unread::NoMemory) => {
            say(&mut diag, MEMORY);
            return ExitCode::from(11);
        }
    };
    let mut shelf = DiskShelf::new(&rt);
    let mut out = StdSink::new(rt.stdout());
    ExitCode::from(run(alloc, &words, &mut shelf, &mut out, &mut diag))
}
