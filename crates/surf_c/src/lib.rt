//! The program as a function for C, and for all that can call C.
//!
//! A call is what `surf` does with words and files, but the files are bytes of the caller's and so
//! is the room for what is said. `surf.h` in this crate's folder declares it.
#![tactic(auto)]

mod memory;
mod words;

ghost use Rattle.std.specs.Prelude.{◌≡◌, ◌≤◌, ◌<◌, length, take, IfOk};
ghost use Rattle.surf_c.specs.Calls.{three, IsSaid, IsSaidInto};
ghost use Rattle.surf_words.specs.Words.{texts};
ghost use Rattle.surf_text.specs.Text.{words_of};

use memory::{GrowingSink, ThreeFiles};
use std::alloc::Global;
use surf_base::NoMemory;
use surf_run::{MEMORY, USAGE, run};
use words::{WordFault, read_words};

/// What is said: a status, and the answer or, from status 2 on, a line.
#[derive(Drop)]
struct Said {
    status: u8,
    text: Vec<u8>,
}

// The answer, or from status 2 on the line.
fn chosen(status: u8, out: GrowingSink, diag: GrowingSink) -> Vec<u8>
    ensures answer { status ≤ 1 → result.items ≡ out.bytes.items }
    ensures line { 1 < status → result.items ≡ diag.bytes.items }
{
    if status <= 1 { out.bytes } else { diag.bytes }
}

fn answer(
    alloc: Global,
    words: &[String],
    first: &[u8],
    second: &[u8],
    third: &[u8],
) -> Result<Said, NoMemory>
    ensures said { IfOk result (λ said. IsSaid (texts words.now)
        (three first.now second.now third.now) said.status said.text.items) }
{
    let mut shelf = ThreeFiles::new(first, second, third);
    let mut out = GrowingSink::new(alloc);
    let mut diag = GrowingSink::new(alloc);
    let status = run(alloc, words, &mut shelf, &mut out, &mut diag);
    if out.faults > 0 || diag.faults > 0 {
        return Err(NoMemory);
    }
    Ok(Said {
        status,
        text: chosen(status, out, diag),
    })
}

/// What a call says: its status, and of how many bytes the text is that goes with it.
#[repr(C)]
#[derive(Drop)]
pub struct SurfSaid {
    pub size: usize,
    pub status: u8,
}

// Puts a text at the front of the room, where it fits.
fn put(status: u8, text: &[u8], room: &mut [u8]) -> SurfSaid
    ensures status { result.status ≡ status }
    ensures size { result.size ≡ length text.now }
    ensures put { length text.now ≤ length room.new → take (length text.now) room.new ≡ text.now }
{
    let size = text.len();
    if size <= room.len() {
        room[..size].copy_from_slice(text);
    }
    SurfSaid { size, status }
}

/// Does what the program does with the words between the blanks of a text. They name three files by
/// `1`, `2` and `3`.
///
/// What is said is the answer where the status is 0 or 1, and else the line that tells why there is
/// none. It is put at the front of the room where it fits; its size is told in any case.
#[unsafe(no_mangle)]
pub extern "C" fn surf_call(
    alloc: Global,
    words: &[u8],
    first: &[u8],
    second: &[u8],
    third: &[u8],
    room: &mut [u8],
) -> SurfSaid
    ensures said { IsSaidInto (words_of words.now) (three first.now second.now third.now)
        result.status result.size room.new }
{
    let words = match read_words(alloc, words) {
        Ok(words) => words,
        Err(WordFault::NoText) => return put(2, USAGE.as_bytes(), room),
        Err(WordFault::Memory) => return put(11, MEMORY.as_bytes(), room),
    };
    match answer(alloc, &words, first, second, third) {
        Ok(said) => put(said.status, &said.text, room),
        Err(_) => put(11, MEMORY.as_bytes(), room),
    }
}
