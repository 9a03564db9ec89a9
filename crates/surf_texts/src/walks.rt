//! The lines of walk files.
ghost use Rattle.std.specs.Prelude.{◌≡◌, ◌++◌, string_bytes, IfOk};
ghost use Rattle.surf_texts.specs.Cause.{line_of};
ghost use Rattle.surf_texts.specs.WalkLines.{file_words, walk_cause};
ghost use Rattle.surf_text.specs.Numbers.{numbered};

use std::alloc::{AllocError, Global};
use surf_class::WalkFault;
use surf_text::numbered;

/// Which of the walk files of a command it is.
#[derive(Clone, Copy, Debug, PartialEq, Eq)]
pub enum WalkFile {
    First,
    Second,
}

impl WalkFile {
    // The words that a line on it begins with.
    fn words(self) -> &'static str
        ensures { result.now ≡ file_words self }
    {
        match self {
            WalkFile::First => "walk 1: ",
            WalkFile::Second => "walk 2: ",
        }
    }
}

fn labelled(
    alloc: Global,
    file: WalkFile,
    words: &str,
    numbers: &[u32],
) -> Result<String, AllocError>
    ensures { IfOk result (λ line. string_bytes line ≡ file_words file ++ numbered words.now numbers.now) }
{
    let mut line = String::from_str(alloc, file.words())?;
    let rest = numbered(alloc, words, numbers)?;
    line.push_str(rest.as_str())?;
    Ok(line)
}

/// The line of a fault in a walk file.
pub(crate) fn walk_line(
    alloc: Global,
    file: WalkFile,
    fault: &WalkFault,
) -> Result<String, AllocError>
    ensures { IfOk result (λ line. string_bytes line ≡ line_of (walk_cause file fault.now)) }
{
    match fault {
        WalkFault::Empty => labelled(alloc, file, "empty", &[]),
        WalkFault::Form { place } => labelled(alloc, file, "form", &[*place]),
        WalkFault::NotVertex { place } => labelled(alloc, file, "not-vertex", &[*place]),
        WalkFault::NotEdge { place } => labelled(alloc, file, "not-edge", &[*place]),
        WalkFault::Unclosed => labelled(alloc, file, "open", &[]),
        WalkFault::Trailing { line } => labelled(alloc, file, "trailing", &[*line]),
        WalkFault::Memory => String::from_str(alloc, "memory\n"),
    }
}
