//! Checks evidence.
ghost use Rattle.std.specs.Prelude.{◌≡◌, ◌≢◌, ◌<◌, ◌≤◌, ℕ, true, false, All, AllPairs, Contains, IfErr, OnOk, IfOk};
ghost use Rattle.std.specs.Prelude.{MatchOption, length, map, slice_index_or};
ghost use Rattle.std.specs.List.{position};
ghost use Rattle.surf_z2.specs.Parity.{xor, odd};
ghost use Rattle.surf_z2.specs.Space.{Chain};
ghost use Rattle.surf_surfaces.specs.Homology.{boundary};
ghost use Rattle.surf_surfaces.specs.Mesh.{edges, pair_lt, among};
ghost use Rattle.surf_surfaces.specs.Surface.{borders, edge_count, face_count, ends, faces_of};
ghost use Rattle.surf_surfaces.specs.Walk.{IsClosed, edge_number, parity};
ghost use Rattle.surf_treecheck.specs.First.{HoldsBelow, FailsFirst};
ghost use Rattle.surf_treecheck.specs.Split.{AreFlags, is_flagged};
ghost use Rattle.surf_classes.specs.Evidence.{IsEvidence, IsNullEvidence, IsOddEvidence, null_faces, odd_pairs};
ghost use Rattle.surf_classes.specs.Evidence.{is_listed, has_odd_sides, is_odd_in};
ghost use Rattle.surf_classes.specs.Faults.{IsNoFace, IsNoPair};
ghost use Rattle.surf_class.specs.Agreement.{AgreesAt};
ghost use Rattle.surf_class.specs.Faults.{IsClassFault};
ghost use Rattle.surf_class.specs.Seen.{seen};

use crate::edges::{faces_beside, pair_edge, turn};
use crate::evidence::{Evidence, FaceList, PairList};
use crate::fault::ClassFault;
use crate::flagged::FlaggedMesh;
use crate::parity::joint_flags;
use std::alloc::Global;
use surf_base::{EdgeId, FaceId, NoMemory, VertexId};
use surf_mesh::{HalfMesh, Walk};

// The least listed number that is no face.
fn first_outside(mesh: &HalfMesh, list: &FaceList) -> Option<FaceId>
    ensures face { MatchOption result (All (λ f. f < face_count mesh.now) list.now)
        (λ f. IsNoFace mesh.now list.now f) }
{
    for face in list.faces() {
        if mesh.faces() <= face.number() {
            return Some(*face);
        }
    }
    None
}

// Flags of the listed faces.
fn face_flags(alloc: Global, mesh: &HalfMesh, faces: &[FaceId]) -> Result<Vec<bool>, NoMemory>
    requires faces { All (λ f. f < face_count mesh.now) faces.now }
    ensures flags { IfOk result (λ v. AreFlags (face_count mesh.now)
        (is_listed faces.now) v.items) }
{
    let mut flags = vec![in alloc; false; mesh.faces() as usize]?;
    for i in 0..faces.len() {
        flags[faces[i].index()] = true;
    }
    Ok(flags)
}

// Whether exactly one face of an edge is flagged.
fn is_between(mesh: &HalfMesh, faces: &[bool], edge: EdgeId) -> bool
    requires count { length faces.now ≡ face_count mesh.now }
    requires edge { edge < edge_count mesh.now }
    ensures between { result ≡ boundary mesh.now (is_flagged faces.now) edge }
{
    let (near, far) = faces_beside(mesh, edge);
    faces[near.index()] != faces[far.index()]
}

// The least edge that is flagged and doesn't bound the flagged faces, or does and isn't flagged.
fn first_differing(flagged: &FlaggedMesh<'_>, faces: &[bool]) -> Option<EdgeId>
    requires faces { length faces.now ≡ face_count flagged.now.mesh.now }
    ensures edge { MatchOption result (HoldsBelow (edge_count flagged.now.mesh.now)
        (AgreesAt flagged.now.mesh.now faces.now flagged.now.flags.now))
        (FailsFirst (edge_count flagged.now.mesh.now)
        (AgreesAt flagged.now.mesh.now faces.now flagged.now.flags.now)) }
{
    for e in 0..flagged.mesh.edges() {
        let edge = EdgeId::new(e);
        if is_between(flagged.mesh, faces, edge) != flagged.flags[edge.index()] {
            return Some(edge);
        }
    }
    None
}

// Whether the flagged edges are the boundary of the faces.
fn check_faces(alloc: Global, flagged: &FlaggedMesh<'_>, list: &FaceList) -> Result<(), ClassFault>
    ensures right { (chain : Chain) →
        AreFlags (edge_count flagged.now.mesh.now) chain flagged.now.flags.now →
        OnOk result (IsNullEvidence flagged.now.mesh.now chain list.now) }
    ensures fault { (chain : Chain) →
        AreFlags (edge_count flagged.now.mesh.now) chain flagged.now.flags.now →
        IfErr result (IsClassFault flagged.now.mesh.now chain (null_faces list.now)) }
{
    let mesh = flagged.mesh;
    mesh.law_of_surface();
    if let Some(face) = first_outside(mesh, list) {
        return Err(ClassFault::Face { face });
    }
    let inside = face_flags(alloc, mesh, list.faces())?;
    if let Some(edge) = first_differing(flagged, &inside) {
        let (u, v) = mesh.ends(edge);
        return Err(ClassFault::Boundary { u, v });
    }
    Ok(())
}

// The least listed pair that is no edge.
fn first_stranger(mesh: &HalfMesh, list: &PairList) -> Option<(VertexId, VertexId)>
    ensures pair { MatchOption result (All (Contains (edges mesh.now)) list.now)
        (λ p. IsNoPair mesh.now list.now p.0 p.1) }
{
    for (u, v) in list.pairs() {
        if mesh.find_edge(*u, *v).is_none() {
            return Some((*u, *v));
        }
    }
    None
}

// Turns the flags of the two faces of an edge.
fn turn_faces(mesh: &HalfMesh, edge: EdgeId, odd: &mut [bool])
    requires edge { edge < edge_count mesh.now }
    requires count { length odd.old ≡ face_count mesh.now }
    ensures turned { (f : ℕ) → f < face_count mesh.now → slice_index_or odd.new f false
        ≡ xor (slice_index_or odd.old f false) (borders mesh.now f edge) }
{
    mesh.law_of_surface();
    let (near, far) = faces_beside(mesh, edge);
    turn(odd, near.index());
    turn(odd, far.index());
}

// Turns the flags of the two faces of each pair.
fn turn_pairs(mesh: &HalfMesh, list: &PairList, flags: &mut [bool])
    requires edges { All (Contains (edges mesh.now)) list.now }
    requires count { length flags.old ≡ face_count mesh.now }
    ensures turned { (f : ℕ) → f < face_count mesh.now → slice_index_or flags.new f false
        ≡ xor (slice_index_or flags.old f false)
        (odd (map (λ p. borders mesh.now f (edge_number mesh.now p)) list.now)) }
{
    let pairs = list.pairs();
    for i in 0..pairs.len() {
        turn_faces(mesh, pair_edge(mesh, pairs[i]), flags);
    }
}

// Flags of the faces that have an odd number of the pairs as sides.
fn odd_faces(alloc: Global, mesh: &HalfMesh, list: &PairList) -> Result<Vec<bool>, NoMemory>
    requires edges { All (Contains (edges mesh.now)) list.now }
    ensures flags { IfOk result (λ v. AreFlags (face_count mesh.now)
        (has_odd_sides mesh.now list.now) v.items) }
{
    list.law_of_pairs();
    let mut odd = vec![in alloc; false; mesh.faces() as usize]?;
    turn_pairs(mesh, list, &mut odd);
    Ok(odd)
}

// The least face that is flagged.
fn first_flagged(faces: &[bool]) -> Option<usize>
    ensures face { result ≡ position (λ b. b) faces.now }
{
    faces.iter().position(|flag| *flag)
}

// Whether an odd number of the pairs are flagged.
fn is_odd(flagged: &FlaggedMesh<'_>, list: &PairList) -> bool
    requires edges { All (Contains (edges flagged.now.mesh.now)) list.now }
    ensures odd { result ≡ is_odd_in flagged.now.mesh.now (is_flagged flagged.now.flags.now)
        list.now }
{
    let pairs = list.pairs();
    let mut odd = false;
    for i in 0..pairs.len() {
        odd = odd != flagged.flags[pair_edge(flagged.mesh, pairs[i]).index()];
    }
    odd
}

// Whether each face has an even number of the pairs as sides, and an odd number of them are
// flagged.
fn check_pairs(alloc: Global, flagged: &FlaggedMesh<'_>, list: &PairList) -> Result<(), ClassFault>
    ensures right { (chain : Chain) →
        AreFlags (edge_count flagged.now.mesh.now) chain flagged.now.flags.now →
        OnOk result (IsOddEvidence flagged.now.mesh.now chain list.now) }
    ensures fault { (chain : Chain) →
        AreFlags (edge_count flagged.now.mesh.now) chain flagged.now.flags.now →
        IfErr result (IsClassFault flagged.now.mesh.now chain (odd_pairs list.now)) }
{
    let mesh = flagged.mesh;
    mesh.law_of_surface();
    list.law_of_pairs();
    if let Some((u, v)) = first_stranger(mesh, list) {
        return Err(ClassFault::Pair { u, v });
    }
    let odd = odd_faces(alloc, mesh, list)?;
    if let Some(f) = first_flagged(&odd) {
        return Err(ClassFault::OddFace {
            face: FaceId::new(f as u32),
        });
    }
    if is_odd(flagged, list) {
        Ok(())
    } else {
        Err(ClassFault::Even)
    }
}

/// Whether evidence is right for a closed walk: either its faces bound the walk modulo 2, or its
/// edges are a cocycle, of which each face has an even number as sides, and the walk runs them an
/// odd number of times. Refuses with the first fault in the order of [`ClassFault`], each with its
/// least witness, or with `Memory` where there is none.
pub fn check_class(
    alloc: Global,
    mesh: &HalfMesh,
    walk: &Walk,
    evidence: &Evidence,
) -> Result<(), ClassFault>
    requires closed { IsClosed mesh.now walk.now }
    ensures right { OnOk result (IsEvidence mesh.now (parity mesh.now walk.now)
        (seen evidence.now)) }
    ensures fault { IfErr result (IsClassFault mesh.now (parity mesh.now walk.now)
        (seen evidence.now)) }
    ensures excludes { IfErr result (λ e. e ≢ ClassFault.Memory →
        IsEvidence mesh.now (parity mesh.now walk.now) (seen evidence.now) → ⊥) }
{
    let flags = joint_flags(alloc, mesh, walk, None)?;
    let flagged = FlaggedMesh {
        mesh,
        flags: &flags,
    };
    match evidence {
        Evidence::Null(list) => {
            list.law_of_faces();
            check_faces(alloc, &flagged, list)
        }
        Evidence::Odd(list) => {
            list.law_of_pairs();
            check_pairs(alloc, &flagged, list)
        }
    }
}
