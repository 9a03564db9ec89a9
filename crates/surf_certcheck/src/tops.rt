//! Left edges that have no edge on the way through the tree of faces with a shorter loop, found for
//! all of them at once.
//!
//! Each face has a face above it, its top so far, up to which no edge has a loop shorter than the
//! last limit. Left edges are taken in the order of falling loops, so what was passed once may be
//! passed again: a climb goes from top to top, and takes the tops of the faces it meets further up.
ghost use Rattle.std.specs.Prelude.{◌≡◌, ◌≢◌, ◌<◌, ◌≤◌, IfOk, IsPermutation, All, length};
ghost use Rattle.std.specs.Prelude.{true};
ghost use Rattle.surf_surfaces.specs.Surface.{edge_count, face_count};
ghost use Rattle.surf_validity.specs.Valid.{depth_at};
ghost use Rattle.surf_treecheck.specs.First.{Tells};
ghost use Rattle.surf_certcheck.specs.Tops.{IsClear, IsHeld, AreTops, AreDoubts};

use crate::heavier::{Judge, size_of};
use std::alloc::Global;
use surf_base::{EdgeId, FaceId, NoMemory};
use surf_treecheck::{faces_inside, step_up};

// A left edge and how long its loop is.
#[derive(Clone, Copy)]
struct LeftLoop {
    size: u128,
    edge: EdgeId,
}

// Whether a face hangs by an edge whose loop is no shorter than the limit.
fn is_held(judge: &Judge<'_>, limit: u128, face: FaceId) -> bool
    requires face { face < face_count judge.now.mesh.now }
    ensures held { Tells result (IsHeld judge.now limit face) }
{
    if face.index() == 0 {
        return false;
    }
    let (_, edge) = step_up(judge.mesh, judge.cert.dual(), judge.links, face);
    limit <= size_of(judge.mesh, judge.lengths, judge.cert.tree(), edge)
}

// The top of a held face, which is taken on to the top of that one where this is held too.
fn raise_top(judge: &Judge<'_>, tops: &mut [u32], limit: u128, face: FaceId) -> FaceId
    requires tops { AreTops judge.now limit tops.old }
    requires face { face < face_count judge.now.mesh.now }
    requires held { IsHeld judge.now limit face }
    ensures tops { AreTops judge.now limit tops.new }
    ensures face { result < face_count judge.now.mesh.now }
    ensures higher { depth_at judge.now.cert.now.dual result < depth_at judge.now.cert.now.dual face }
    ensures clear { IsClear judge.now limit face result }
{
    let above = FaceId::new(tops[face.index()]);
    if is_held(judge, limit, above) {
        let top = tops[above.index()];
        tops[face.index()] = top;
        FaceId::new(top)
    } else {
        above
    }
}

// The last face on the way up from a face by edges whose loops are no shorter than the limit.
fn top_of(judge: &Judge<'_>, tops: &mut [u32], limit: u128, face: FaceId) -> FaceId
    requires tops { AreTops judge.now limit tops.old }
    requires face { face < face_count judge.now.mesh.now }
    ensures tops { AreTops judge.now limit tops.new }
    ensures clear { IsClear judge.now limit face result }
{
    let mut at = face;
    while is_held(judge, limit, at) {
        at = raise_top(judge, tops, limit, at);
    }
    at
}

// Whether the two faces of an edge have one top.
fn have_one_top(judge: &Judge<'_>, tops: &mut [u32], limit: u128, faces: (FaceId, FaceId)) -> bool
    requires tops { AreTops judge.now limit tops.old }
    requires faces { (faces.0 < face_count judge.now.mesh.now)
        × (faces.1 < face_count judge.now.mesh.now) }
    ensures tops { AreTops judge.now limit tops.new }
    ensures clear { result ≡ true → IsClear judge.now limit faces.0 faces.1 }
{
    let near = top_of(judge, tops, limit, faces.0);
    let far = top_of(judge, tops, limit, faces.1);
    near.index() == far.index()
}

// Takes the flag of a left edge that surely has no edge with a shorter loop, and tells the limit
// that tops have then. One whose loop is longer than the last limit keeps its flag.
fn clear_flag(
    judge: &Judge<'_>,
    tops: &mut [u32],
    level: u128,
    flags: &mut [bool],
    l: EdgeId,
) -> u128
    requires tops { AreTops judge.now level tops.old }
    requires flags { AreDoubts judge.now flags.old }
    requires edge { l < edge_count judge.now.mesh.now }
    ensures tops { AreTops judge.now result tops.new }
    ensures flags { AreDoubts judge.now flags.new }
{
    let limit = size_of(judge.mesh, judge.lengths, judge.cert.tree(), l);
    if level < limit {
        return level;
    }
    if have_one_top(judge, tops, limit, faces_inside(judge.mesh, l)) {
        flags[l.index()] = false;
    }
    limit
}

// The flagged edges, the longest loops first.
fn falling_loops(
    alloc: Global,
    judge: &Judge<'_>,
    flags: &[bool],
) -> Result<Vec<LeftLoop>, NoMemory>
    requires count { length flags.now ≡ edge_count judge.now.mesh.now }
    ensures inside { IfOk result (λ loops. All (λ l. l.edge < edge_count judge.now.mesh.now)
        loops.items) }
{
    let mut loops = Vec::new(alloc);
    for e in 0..judge.mesh.edges() {
        if flags[e as usize] {
            let edge = EdgeId::new(e);
            let size = size_of(judge.mesh, judge.lengths, judge.cert.tree(), edge);
            loops.push(LeftLoop { size, edge })?;
        }
    }
    sort_loops(&mut loops);
    Ok(loops)
}

// Puts loops into order, the longest first.
fn sort_loops(loops: &mut [LeftLoop])
    ensures same { IsPermutation loops.old loops.new }
{
    loops.sort_unstable_by_key(|l| !l.size);
}

/// Takes the flags of left edges that surely have no edge with a shorter loop. Where a certificate
/// is valid none stays, which no clause says: a flag only costs time.
pub(crate) fn clear_flags(
    alloc: Global,
    judge: &Judge<'_>,
    flags: &mut [bool],
) -> Result<(), NoMemory>
    requires flags { AreDoubts judge.now flags.old }
    ensures flags { AreDoubts judge.now flags.new }
{
    judge.mesh.law_of_surface();
    let loops = falling_loops(alloc, judge, flags)?;
    let mut tops = judge.links.parent.to_vec(alloc)?;
    let mut level = u128::MAX;
    for k in 0..loops.len() {
        level = clear_flag(judge, &mut tops, level, flags, loops[k].edge);
    }
    Ok(())
}
