//! Sews copies together.
ghost use Rattle.std.specs.Prelude.{◌≡◌, ◌≢◌, ◌==◌, nat_lt, ◌<◌, ◌≤◌, ◌^◌, ℕ, None, Some, Ok, [], length};
ghost use Rattle.std.specs.Prelude.{slice_index, AllPairs, MatchResult, IfOk, IfNone};
ghost use Rattle.std.specs.List.{All, list_all, position, position_or_len};
ghost use Rattle.surf_off.specs.Off.{first_repeat};
ghost use Rattle.surf_sew.specs.Sewing.{different, first_copies, gap_fault, HaveCopies, line_fault, sewn_face};
ghost use Rattle.surf_base.specs.Gives.{Gives};
ghost use Rattle.surf_sew.specs.Sewing.{sewn_faces, repeat_from, unless, sewn_of};

use crate::fault::SewFault;
use crate::first::list_first;
use std::alloc::{AllocError, Global};
use surf_base::{CopyId, FaceId, VertexId};
use surf_off::OffText;
use surf_soup::Soup;

// The first vertex without a copy.
fn first_without(first: &[u32], copies: u32) -> Option<usize>
    ensures place { result ≡ position (λ c. c == copies) first.now }
{
    first.iter().position(|c| *c == copies)
}

// The first vertex without a copy, or how many vertices are listed.
fn first_gap(first: &[u32], copies: u32) -> usize
    ensures gap { result ≡ position_or_len (λ c. c == copies) first.now }
{
    match first_without(first, copies) {
        Some(v) => v,
        None => first.len(),
    }
}

fn are_below(origins: &[VertexId], vertices: usize) -> bool
    ensures below { result ≡ list_all (λ v. nat_lt v vertices) origins.now }
{
    origins.iter().all(|v| v.index() < vertices)
}

// How many different origins there are, where they have no gap.
fn count_origins(first: &[u32], origins: &[VertexId]) -> Result<u32, SewFault>
    requires countable { length origins.now < 2 ^ 32 }
    requires first { first.now ≡ first_copies origins.now 0 (length origins.now) }
    ensures count { MatchResult result (λ n. (gap_fault origins.now ≡ None)
        × (n ≡ different origins.now)) (λ e. gap_fault origins.now ≡ Some e) }
    ensures within { IfOk result (λ n. All (λ v. v < n) origins.now) }
    ensures copies { IfOk result (λ n. HaveCopies origins.now n) }
    ensures few { IfOk result (λ n. n ≤ length origins.now) }
{
    let gap = first_gap(first, origins.len() as u32);
    if are_below(origins, gap) {
        Ok(gap as u32)
    } else {
        Err(SewFault::Gap {
            v: VertexId::new(gap as u32),
        })
    }
}

// Compares the vertex line of each copy with that of the least copy with its origin.
fn compare_lines(text: &OffText<'_>, first: &[u32], origins: &[VertexId]) -> Result<(), SewFault>
    requires lines { length text.now.vertex_lines ≡ length origins.now }
    requires countable { length origins.now < 2 ^ 32 }
    requires first { first.now ≡ first_copies origins.now 0 (length origins.now) }
    requires within { All (λ v. v < length origins.now) origins.now }
    ensures lines { MatchResult result (λ _. line_fault text.now.vertex_lines origins.now ≡ None)
        (λ e. line_fault text.now.vertex_lines origins.now ≡ Some e) }
{
    for c in 0..origins.len() {
        let copy = VertexId::new(c as u32);
        let earlier = VertexId::new(first[origins[c].index()]);
        if text.vertex_line(copy) != text.vertex_line(earlier) {
            return Err(SewFault::Line {
                copy: CopyId::new(copy.number()),
                earlier: CopyId::new(earlier.number()),
            });
        }
    }
    Ok(())
}

// The origins of the corners of a face, in place of those that were kept. Gives the first that
// stands before, if there is one. Each vertex has the stamp of the last face that it was seen on,
// so that a face of many corners takes one turn for each.
fn sew_face(
    face: &[VertexId],
    origins: &[VertexId],
    marks: &mut [u32],
    stamp: u32,
    corners: &mut Vec<VertexId>,
) -> Result<Option<VertexId>, AllocError>
    requires inside { All (λ c. c < length origins.now) face.now }
    requires within { All (λ v. v < length marks.old) origins.now }
    requires earlier { (k : ℕ) → k < length marks.old → slice_index marks.old k < stamp }
    ensures first { IfOk result (λ r. r ≡ first_repeat [] (sewn_face origins.now face.now)) }
    ensures corners { IfOk result (λ r. IfNone r (corners.new.items
        ≡ sewn_face origins.now face.now)) }
    ensures distinct { IfOk result (λ r. IfNone r (AllPairs (λ a b. a ≢ b) corners.new.items)) }
    ensures marks { (k : ℕ) → k < length marks.new → slice_index marks.new k ≤ stamp }
{
    corners.clear();
    for c in face {
        let v = origins[c.index()];
        if marks[v.index()] == stamp {
            return Ok(Some(v));
        }
        marks[v.index()] = stamp;
        corners.push(v)?;
    }
    Ok(None)
}

// The faces over so many vertices.
fn sew_faces(
    alloc: Global,
    soup: &Soup,
    origins: &[VertexId],
    vertices: u32,
) -> Result<Soup, SewFault>
    requires copies { length origins.now ≡ soup.now.vertices }
    requires within { All (λ v. v < vertices) origins.now }
    ensures faces { Gives SewFault.Memory (λ s. s) result (unless
        (repeat_from 0 (sewn_faces origins.now soup.now.faces)) (Ok (record {
          vertices = vertices;
          faces = sewn_faces origins.now soup.now.faces;
        }))) }
    ensures count { IfOk result (λ s. length s.faces ≡ length soup.now.faces) }
{
    let mut sewn = Soup::start(alloc, vertices);
    let mut corners = Vec::new(alloc);
    let mut marks = vec![in alloc; 0u32; vertices as usize]?;
    soup.law_of_soup();
    for f in 0..soup.faces() {
        let face = FaceId::new(f);
        match sew_face(soup.face(face), origins, &mut marks, f + 1, &mut corners)? {
            Some(v) => return Err(SewFault::FaceRepeat { face, v }),
            None => sewn.push_face(&corners)?,
        }
    }
    Ok(sewn)
}

/// The mesh with each corner replaced by its origin, over as many vertices as there are different
/// origins. `soup` has the vertices and faces of `text`, and `origins` has the vertex of each copy.
/// Refuses with the first gap below the number of different origins; then with the least copy whose
/// vertex line differs from that of the least copy with its origin; then with the least face that
/// has an origin at two corners; then with `Memory` where there is none.
pub fn sew(
    alloc: Global,
    text: &OffText<'_>,
    soup: &Soup,
    origins: &[VertexId],
) -> Result<Soup, SewFault>
    requires lines { length text.now.vertex_lines ≡ soup.now.vertices }
    requires origins { length origins.now ≡ soup.now.vertices }
    ensures sewn { Gives SewFault.Memory (λ s. s) result
        (sewn_of text.now.vertex_lines soup.now origins.now) }
    ensures copies { IfOk result (λ s. HaveCopies origins.now s.vertices) }
    ensures faces { IfOk result (λ s. length s.faces ≡ length soup.now.faces) }
{
    let mut first = vec![in alloc; 0u32; soup.vertices() as usize]?;
    list_first(origins, 0, &mut first);
    let vertices = count_origins(&first, origins)?;
    compare_lines(text, &first, origins)?;
    sew_faces(alloc, soup, origins, vertices)
}
