//! Runs of the program over the files, and what is due. What comes of a run is told by functions
//! that borrow it, since a proof treats each way out of a function that owns it anew.
ghost use Rattle.std.specs.Prelude.{◌<◌};

use crate::files::files;
use std::alloc::Global;
use std::test::Fail;
use surf_base::{MemShelf, MemSink};
use surf_run::run;

/// What is due of a run: its status, and what it writes.
#[derive(Clone, Copy)]
pub struct Due<'a> {
    pub status: u8,
    pub out: &'a str,
    pub diag: &'a str,
}

/// A shelf of the files that gives at most `piece` bytes a read.
pub fn shelf_of(alloc: Global, piece: usize, fails: &[u64]) -> Result<MemShelf, Fail>
    requires { 0 < piece }
{
    let mut names = Vec::new(alloc);
    let mut texts = Vec::new(alloc);
    for (name, text) in files() {
        names.push(String::from_str(alloc, name)?)?;
        texts.push(text.as_bytes().to_vec(alloc)?)?;
    }
    let fails = fails.to_vec(alloc)?;
    if names.len() != texts.len() {
        return Err("a text for each name")?;
    }
    Ok(MemShelf::make(names, texts, piece, fails))
}

/// A sink with room for `room` bytes that takes at most `piece` of them a write.
pub fn sink_of(alloc: Global, room: usize, piece: usize, fails: &[u64]) -> Result<MemSink, Fail>
    requires { 0 < piece }
{
    let fails = fails.to_vec(alloc)?;
    Ok(MemSink::make(alloc, room, piece, fails).ok().ok_or("room")?)
}

// The words of a command line.
fn words_of(alloc: Global, line: &str) -> Result<Vec<String>, Fail> {
    let mut words = Vec::new(alloc);
    for word in line.split_whitespace() {
        words.push(String::from_str(alloc, word)?)?;
    }
    Ok(words)
}

/// Runs the words of a command line, and answers the status.
pub fn status_of(
    alloc: Global,
    line: &str,
    shelf: &mut MemShelf,
    out: &mut MemSink,
    diag: &mut MemSink,
) -> Result<u8, Fail> {
    let words = words_of(alloc, line)?;
    Ok(run(alloc, &words, shelf, out, diag))
}

/// What isn't as is due, or nothing.
pub fn difference(due: &Due, status: u8, out: &MemSink, diag: &MemSink) -> &'static str {
    if status != due.status {
        return "status";
    }
    if out.written() != due.out.as_bytes() {
        return "output";
    }
    if diag.written() != due.diag.as_bytes() {
        return "diagnostics";
    }
    ""
}

/// What isn't as is due of a run over a shelf and streams that move at most `piece` bytes a call,
/// with `room` for the diagnostics, where the calls of the shelf that are numbered in `fails` fail.
pub fn difference_over(
    alloc: Global,
    line: &str,
    due: &Due,
    piece: usize,
    room: usize,
    fails: &[u64],
) -> Result<&'static str, Fail>
    requires { 0 < piece }
{
    let mut shelf = shelf_of(alloc, piece, fails)?;
    let mut out = sink_of(alloc, 1_000, piece, &[])?;
    let mut diag = sink_of(alloc, room, piece, &[])?;
    let status = status_of(alloc, line, &mut shelf, &mut out, &mut diag)?;
    Ok(difference(due, status, &out, &diag))
}
