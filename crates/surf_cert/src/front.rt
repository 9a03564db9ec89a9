//! Certificates of loops whose text goes while it is read.
ghost use Rattle.std.specs.Prelude.{◌≡◌, ◌<◌, ◌+◌, drop, length};
ghost use Rattle.surf_text.specs.Text.{lines_of};
ghost use Rattle.surf_base.specs.Gives.{Gives};
ghost use Rattle.surf_cert.specs.Grammar.{loops_in, parsed_cert};
ghost use Rattle.surf_cert.specs.Fronts.{front_faces, front_in, behind_front, begins_loops};

use crate::blank::drop_lines;
use crate::fault::CertText;
use crate::line::{Counts, is_header};
use crate::next::{next_counts, next_word};
use crate::read::{read_cert, read_end};
use crate::sections::{face_tables, read_left, read_more_faces, read_tree};
use std::alloc::Global;
use surf_base::VertexId;
use surf_records::{Cert, DualRows, LoopCert, TreeRows};
use surf_text::Lines;

/// What is read of a certificate of loops when the front of its text goes: the counts, the tree,
/// and the rows of a third of the faces. The text is whole until then, and the tables of the other
/// faces are empty, so neither adds to the other's room.
#[derive(Drop)]
pub(crate) struct Front {
    counts: Counts,
    tree: TreeRows,
    depth: Vec<u32>,
    side: Vec<Option<(VertexId, VertexId)>>,
}

// The front of a certificate.
#[tactic(auto, unfolding(crate::specs::Fronts::front_in))]
fn read_front_lines(alloc: Global, lines: &mut Lines<'_>) -> Result<Front, CertText>
    ensures front { Gives CertText.Memory (λ x. (
      (
        x.counts,
        x.tree,
        record { depth = x.depth.items; side = x.side.items },
      ),
      lines.new,
    )) result
        (front_in lines.old) }
{
    let counts = next_counts(lines)?;
    let tree = read_tree(alloc, lines, counts.vertices)?;
    next_word(lines, b"dual")?;
    let (mut depth, mut side) = face_tables(alloc, counts.faces)?;
    read_more_faces(lines, counts.faces / 3, &mut depth, &mut side)?;
    Ok(Front {
        counts,
        tree,
        depth,
        side,
    })
}

// The front of the certificate of a text.
fn read_front(alloc: Global, text: &[u8]) -> Result<Front, CertText>
    requires short { length text.now < 4294967295 }
    ensures front { Gives CertText.Memory (λ x. (
      (
        x.counts,
        x.tree,
        record { depth = x.depth.items; side = x.side.items },
      ),
      drop (x.counts.vertices + front_faces x.counts + 4) (lines_of text.now),
    )) result
        (front_in (drop 1 (lines_of text.now))) }
{
    let mut lines = Lines::over(text);
    lines.next_line();
    read_front_lines(alloc, &mut lines)
}

// The certificate of a front and of the text behind it.
#[tactic(auto, unfolding(crate::specs::Fronts::behind_front))]
fn read_behind(alloc: Global, text: &[u8], front: Front) -> Result<LoopCert, CertText>
    requires short { length text.now < 4294967295 }
    ensures loops { Gives CertText.Memory (λ x. x) result (behind_front (
      front.counts,
      front.tree,
      record { depth = front.depth.items; side = front.side.items },
    ) (lines_of text.now)) }
{
    let Front {
        counts,
        tree,
        mut depth,
        mut side,
    } = front;
    let mut lines = Lines::over(text);
    let rest = counts.faces - counts.faces / 3;
    read_more_faces(&mut lines, rest, &mut depth, &mut side)?;
    let left = read_left(alloc, &mut lines, counts.left)?;
    read_end(&mut lines)?;
    Ok(LoopCert::make(tree, DualRows::make(depth, side), left))
}

// The certificate of loops behind the first line of a text, which goes while it is read.
fn take_loops(alloc: Global, mut text: Vec<u8>) -> Result<LoopCert, CertText>
    requires short { length text.items < 4294967295 }
    ensures loops { Gives CertText.Memory (λ x. x) result (loops_in (drop 1 (lines_of text.items))) }
{
    let front = read_front(alloc, &text)?;
    let lines = front.counts.vertices as usize + (front.counts.faces / 3) as usize + 4;
    drop_lines(&mut text, lines);
    read_behind(alloc, &text, front)
}

// Whether the first line of a text is that of a certificate of loops.
fn begins_loops(text: &[u8]) -> bool
    requires short { length text.now < 4294967295 }
    ensures loops { result ≡ begins_loops (lines_of text.now) }
{
    let mut lines = Lines::over(text);
    match lines.next_line() {
        Some(line) => is_header(line.bytes, b"loops"),
        None => false,
    }
}

/// Reads the text of a certificate as `read_cert` does. The text of a certificate of loops goes
/// while it is read: a third of the rows of faces stands in tables when the lines up to there go,
/// so the text and the tables never take their whole room at once.
#[tactic(auto, using(crate::proofs::FrontLines::loops_begun))]
pub fn take_cert(alloc: Global, text: Vec<u8>) -> Result<Cert, CertText>
    requires short { length text.items < 4294967295 }
    ensures cert { Gives CertText.Memory (λ x. x) result (parsed_cert text.items) }
{
    if !begins_loops(&text) {
        return read_cert(alloc, &text);
    }
    let cert = take_loops(alloc, text)?;
    Ok(Cert::Loops(cert))
}
